//! The rules on the segments of a database.
ghost use Rattle.std.specs.Prelude.{◌≡◌, [], Some};
ghost use Rattle.sysdef_rules.specs.Segments as spec;

use crate::lookups::{MacroKind, front, has_segment, parent_in, parent_named};
use system_types::{Macro, MacroLine};
use tm_types::Name;

/// A rule that the segments of a database keep.
#[derive(Clone, Copy, Debug)]
pub enum SegmentRule {
    /// A segment stands twice.
    Twice,
    /// The first segment has a parent; or another has none, or one that doesn't stand before it; or
    /// there is no segment.
    ParentAstray,
    /// A key is longer than the data.
    KeyTooLong,
    /// A segment stands below the eighth level.
    LevelTooHigh,
}

#[tactic(auto, unfolding(crate::specs::Segments::breaks_name))]
fn breaks_name(before: &[MacroLine], content: &Macro) -> bool
    ensures { result ≡ spec.breaks_name before.now content.now }
{
    match content {
        Macro::Segment { name, .. } => has_segment(name, before),
        _ => false,
    }
}

fn stands_in(segments: &[MacroLine], name: &Option<Name>) -> bool
    ensures { result ≡ spec.stands_in segments.now name.now }
{
    match name {
        Some(name) => has_segment(name, segments),
        None => false,
    }
}

#[tactic(auto, unfolding(crate::specs::Segments::breaks_parent))]
fn breaks_parent(before: &[MacroLine], content: &Macro) -> bool
    ensures { result ≡ spec.breaks_parent before.now content.now }
{
    let parent = parent_in(content);
    match before {
        [] => parent.is_some(),
        [_, ..] => !stands_in(before, &parent),
    }
}

#[tactic(auto, unfolding(crate::specs::Segments::breaks_key))]
fn breaks_key(content: &Macro) -> bool
    ensures { result ≡ spec.breaks_key content.now }
{
    match content {
        Macro::Segment { key, bytes, .. } => *bytes < u16::from(*key),
        _ => false,
    }
}

/// The segment eight parents above the one with this name.
fn eighth_ancestor(segments: &[MacroLine], name: &Name) -> Option<Name>
    ensures { result ≡ spec.ancestor segments.now 8 (Some name.now) }
{
    let first = parent_named(segments, name)?;
    let second = parent_named(segments, &first)?;
    let third = parent_named(segments, &second)?;
    let fourth = parent_named(segments, &third)?;
    let fifth = parent_named(segments, &fourth)?;
    let sixth = parent_named(segments, &fifth)?;
    let seventh = parent_named(segments, &sixth)?;
    parent_named(segments, &seventh)
}

#[tactic(auto, unfolding(crate::specs::Segments::breaks_level))]
fn breaks_level(segments: &[MacroLine], content: &Macro) -> bool
    ensures { result ≡ spec.breaks_level segments.now content.now }
{
    match content {
        Macro::Segment { name, .. } => eighth_ancestor(segments, name).is_some(),
        _ => false,
    }
}

fn breaks_segment(
    rule: SegmentRule,
    segments: &[MacroLine],
    before: &[MacroLine],
    content: &Macro,
) -> bool
    ensures { result ≡ spec.breaks_segment rule segments.now before.now content.now }
{
    match rule {
        SegmentRule::Twice => breaks_name(before, content),
        SegmentRule::ParentAstray => breaks_parent(before, content),
        SegmentRule::KeyTooLong => breaks_key(content),
        SegmentRule::LevelTooHigh => breaks_level(segments, content),
    }
}

/// The first segment that breaks the rule.
fn first_segment(rule: SegmentRule, segments: &[MacroLine]) -> Option<u32>
    ensures { result ≡ spec.first_segment rule segments.now [] segments.now }
{
    for (index, line) in segments.iter().enumerate() {
        if breaks_segment(rule, segments, &segments[..index], &line.content) {
            return Some(line.number);
        }
    }
    None
}

fn broken_in(rule: SegmentRule, line: &MacroLine, segments: &[MacroLine]) -> Option<u32>
    ensures { result ≡ spec.broken_in rule line.now segments.now }
{
    match (rule, segments) {
        (SegmentRule::ParentAstray, []) => Some(line.number),
        _ => first_segment(rule, segments),
    }
}

/// The lowest line of a database that breaks the rule.
pub(crate) fn broken_by_segment(
    rule: SegmentRule,
    line: &MacroLine,
    behind: &[MacroLine],
) -> Option<u32>
    ensures { result ≡ spec.broken_by_segment rule line.now line.now.content behind.now }
{
    match line.content {
        Macro::Database { .. } => broken_in(rule, line, front(MacroKind::Segments, behind)),
        _ => None,
    }
}
