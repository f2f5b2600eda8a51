//! For the words `workload seed n`: the text of a definition and of a session that moves money between accounts, made
//! from a seed, and what a session is summed up in.
//!
//! Proved: the text is the one that the definition gives for the seed and the count of transfers, in full
//! (`workload_text` of specs/Workload): the definition (`definition`, `programs`), the inputs with what takes their
//! replies (`session`), the draws in their order (`draws`). The counts are those of the entries of the session's lives
//! (`counts`, specs/Counts): inputs accepted as new ones, completions, at the end of a script and at a further GU,
//! abends, and regions that gave way, which are neither. The last reply is the one on the last line of the transcript
//! that shows one (`shown`, specs/ShownReply). The text of a summary is the lines of these (`text`, specs/Summary).
#![tactic(auto)]

mod counts;
mod definition;
mod draws;
mod programs;
mod session;
mod shown;
mod text;

ghost use Rattle.std.specs.Prelude.{◌≡◌, ◌≤◌, IfOk};
ghost use Rattle.workload.specs.Workload.{workload_text};

use definition::add_definition;
use session::{add_openings, add_transfers};
use std::alloc::Global;
pub use text::summary;
use tm_types::{Bytes, Memory};

/// The text of the workload with this seed and this many transfers, 10,000 at most: a definition with 100
/// accounts and four regions, and a session that opens the accounts from T9, moves money between them from
/// T1, and asks for the sum from T2. After every 50 inputs, and after the last, the regions take their turns
/// until nothing is left to do, and all replies are shown and acknowledged. `Memory` is the only refusal.
#[tactic(auto, unfolding(crate::specs::Workload::workload_text))]
pub fn make(alloc: Global, seed: u64, n: u32) -> Result<Bytes, Memory>
    requires { n ≤ 10000 }
    ensures { IfOk result (λ text. text ≡ workload_text seed n) }
{
    let mut out = Bytes::new(alloc);
    add_definition(&mut out)?;
    add_openings(&mut out, 100)?;
    add_transfers(&mut out, seed, n)?;
    out.append(b"IN T2 1 SUM\nQUIET 1000000\nRECV T2\n")?;
    Ok(out)
}
