//! The status codes of a call.
ghost use Rattle.std.specs.Prelude.{◌≡◌};
ghost use Rattle.tm_types.specs.Status.{status_text};

/// The status code that a call gives back.
#[derive(Clone, Copy, Debug, PartialEq, Eq, Hash)]
pub enum Status {
    /// Two blanks: the call did what it asked for.
    Blank,
    QC,
    QD,
    A2,
    A3,
    A6,
    A7,
    QH,
    GE,
    GB,
    GP,
    GA,
    GK,
    II,
    DJ,
    DA,
    AM,
}

impl Status {
    /// The two characters of the status.
    pub fn text(self) -> &'static [u8; 2]
        ensures { result.now ≡ status_text self }
    {
        match self {
            Status::Blank => b"  ",
            Status::QC => b"QC",
            Status::QD => b"QD",
            Status::A2 => b"A2",
            Status::A3 => b"A3",
            Status::A6 => b"A6",
            Status::A7 => b"A7",
            Status::QH => b"QH",
            Status::GE => b"GE",
            Status::GB => b"GB",
            Status::GP => b"GP",
            Status::GA => b"GA",
            Status::GK => b"GK",
            Status::II => b"II",
            Status::DJ => b"DJ",
            Status::DA => b"DA",
            Status::AM => b"AM",
        }
    }
}
