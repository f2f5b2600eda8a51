//! The words of a line, which one blank parts.
ghost use Rattle.std.specs.Prelude.{◌≡◌};
ghost use Rattle.model_session.specs.Blocks as spec;

/// How many operands a line has, as many as blanks.
pub(crate) fn operand_count(line: &[u8]) -> usize
    ensures { result ≡ spec.operand_count line.now }
{
    line.iter().filter(|b| **b == b' ').count()
}

/// Whether a line has an operand.
pub(crate) fn has_operand(line: &[u8]) -> bool
    ensures { result ≡ spec.has_operand line.now }
{
    1 <= operand_count(line)
}
