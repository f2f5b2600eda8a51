//! The code of an abnormal end.
/// The user code of an abnormal end, printed with four digits behind a U.
#[derive(Clone, Copy, Debug, PartialEq, Eq, Hash)]
pub struct AbendCode {
    pub number: u16,
}
