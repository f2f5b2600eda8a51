//! Indexes of lists by name.
ghost use Rattle.std.specs.Prelude.{◌≡◌, ◌<◌, ℕ, List, Some, None, IfOk, OnOk, OnErr, cond, length, map, slice_get};
ghost use Rattle.std.specs.Option.{option_and_then, option_copied, option_map_or, option_or};
ghost use Rattle.std.specs.Str.{bytes_eq};
ghost use Rattle.tm_types.specs.Name.{IsName};
ghost use Rattle.system_types.specs.Indexes.{AreItemsNamed, IsIndex, has_code_name, has_program_name, has_terminal_name, place_in, program_place};

use model_system::{Code, SystemProgram};
use std::alloc::{AllocError, Global};
use std::collections::BTreeMap;
use tm_types::Name;

/// The index of codes.
pub(crate) fn codes_by_name(
    alloc: Global,
    codes: &[Code],
) -> Result<BTreeMap<Name, usize>, AllocError>
    ensures index { IfOk result (λ index. IsIndex has_code_name index codes.now) }
    ensures named { OnOk result (AreItemsNamed (λ code. code.transaction.code) codes.now) }
{
    let mut index = BTreeMap::new(alloc);
    for (place, code) in codes.iter().enumerate() {
        add_name(&mut index, &code.transaction.code, place)?;
    }
    Ok(index)
}

/// The index of terminals.
pub(crate) fn terminals_by_name(
    alloc: Global,
    terminals: &[Name],
) -> Result<BTreeMap<Name, usize>, AllocError>
    ensures index { IfOk result (λ index. IsIndex has_terminal_name index terminals.now) }
    ensures named { OnOk result (AreItemsNamed (λ name. name) terminals.now) }
{
    let mut index = BTreeMap::new(alloc);
    for (place, terminal) in terminals.iter().enumerate() {
        add_name(&mut index, terminal, place)?;
    }
    Ok(index)
}

/// The index of programs, by their PSBs.
fn programs_by_name(
    alloc: Global,
    programs: &[SystemProgram],
) -> Result<BTreeMap<Name, usize>, AllocError>
    ensures { IfOk result (λ index. IsIndex has_program_name index programs.now) }
{
    let mut index = BTreeMap::new(alloc);
    for (place, program) in programs.iter().enumerate() {
        add_name(&mut index, &program.psb, place)?;
    }
    Ok(index)
}

/// Adds a name with its place to an index by name, unless it is there: an index has of each name the
/// place of the first that has it. Want of memory changes nothing.
pub fn add_name(
    index: &mut BTreeMap<Name, usize>,
    name: &Name,
    place: usize,
) -> Result<(), AllocError>
    ensures ok { OnOk result ((other : List ℕ) → place_in index.new other ≡ option_or (place_in index.old other) (cond (bytes_eq name.now other) (Some place) None)) }
    ensures err { OnErr result (index.new.entries ≡ index.old.entries) }
    ensures named { IsName name.now }
{
    let _bytes = name.as_bytes();
    if !index.contains_key(name) {
        index.insert(*name, place)?;
    }
    Ok(())
}

/// For each code the place of its program.
pub(crate) fn program_places(
    alloc: Global,
    codes: &[Code],
    programs: &[SystemProgram],
) -> Result<Vec<usize>, AllocError>
    ensures { IfOk result (λ places. places.items ≡ map (program_place programs.now) codes.now) }
{
    let index = programs_by_name(alloc, programs)?;
    let mut places = Vec::new(alloc);
    for code in codes {
        places.push(program_place(&index, programs, code))?;
    }
    Ok(places)
}

#[tactic(auto, using(crate::proofs::Indexed::place_or_len))]
fn program_place(index: &BTreeMap<Name, usize>, programs: &[SystemProgram], code: &Code) -> usize
    requires { IsIndex has_program_name index.now programs.now }
    ensures { result ≡ program_place programs.now code.now }
{
    place_or(index, &code.psb, programs.len())
}

fn place_or(index: &BTreeMap<Name, usize>, name: &Name, otherwise: usize) -> usize
    ensures { result ≡ option_map_or (λ place. place) (place_in index.now name.now) otherwise }
{
    index.get(name).copied().unwrap_or(otherwise)
}

/// The code at a place, where there is one.
pub(crate) fn code_at(codes: &[Code], place: Option<usize>) -> Option<&Code>
    ensures { option_copied result ≡ option_and_then (slice_get codes.now) place }
{
    codes.get(place?)
}

/// The program at the place that stands at a place of the list.
pub(crate) fn program_at<'a>(
    programs: &'a [SystemProgram],
    places: &[usize],
    place: Option<usize>,
) -> Option<&'a SystemProgram>
    ensures { option_copied result ≡ option_and_then (slice_get programs.now) (option_and_then (slice_get places.now) place) }
{
    let place = *places.get(place?)?;
    programs.get(place)
}
