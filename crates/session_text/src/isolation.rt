//! The lines of regions that wait for one another, and of those that gave way.
ghost use Rattle.std.specs.Prelude.{◌≡◌, ◌<◌, ◌≤◌, ◌+◌, ◌*◌, ◌++◌, ◌∷◌, [], length, codes, decimal, drop, take};
ghost use Rattle.std.specs.List.{flat_map, list_all, position_or_len};
ghost use Rattle.model_session.specs.Text as text;

use crate::Printed;
use crate::lines::add_region;
use model_data::{Cycle, Victim};
use tm_types::{Dbd, Key, Resource};

/// Adds what a region waits for and by whom, in 80 bytes at most.
pub(crate) fn add_waits(out: &mut Printed, databases: &[Dbd], resource: &Resource, by: u32)
    requires { 80 ≤ out.old.room }
    ensures text { out.new.text ≡ out.old.text ++ (codes "WAITS " ++ text.resource_text databases.now resource.now ++ codes " BY " ++ decimal by) }
    ensures room { out.old.room ≤ out.new.room + 80 }
{
    out.push(b"WAITS ");
    add_database(out, databases, resource.db);
    add_root(out, &resource.root);
    out.push(b" BY ");
    out.push_number(u64::from(by));
}

/// Adds the name of the database of this number, in 8 bytes at most.
fn add_database(out: &mut Printed, databases: &[Dbd], number: u8)
    requires { 8 ≤ out.old.room }
    ensures text { out.new.text ≡ out.old.text ++ text.database_text databases.now number }
    ensures room { out.old.room ≤ out.new.room + 8 }
{
    if let Some(dbd) = databases.get(usize::from(number).saturating_sub(1)) {
        out.push(dbd.name.as_bytes());
    }
}

/// Adds a slash and a root key, in 33 bytes at most, where there is one.
fn add_root(out: &mut Printed, root: &Option<Key>)
    requires { 33 ≤ out.old.room }
    ensures text { out.new.text ≡ out.old.text ++ text.root_text root.now }
    ensures room { out.old.room ≤ out.new.room + 33 }
{
    if let Some(root) = root {
        out.push(b"/");
        out.push(root.as_bytes());
    }
}

/// Adds a line for each region that gave way in a region's turn, in 240 bytes at most each.
pub(crate) fn add_victims(out: &mut Printed, region: u32, victims: &[Victim])
    requires { 240 * length victims.now ≤ out.old.room }
    ensures { out.new.text ≡ out.old.text ++ flat_map (λ victim. text.region_line region (text.victim_text victim)) victims.now }
{
    for victim in victims {
        add_victim(out, region, victim);
    }
}

fn add_victim(out: &mut Printed, region: u32, victim: &Victim)
    requires { 240 ≤ out.old.room }
    ensures text { out.new.text ≡ out.old.text ++ text.region_line region (text.victim_text victim.now) }
    ensures room { out.old.room ≤ out.new.room + 240 }
{
    add_region(out, region);
    out.push(b"U0777 ");
    out.push_number(u64::from(victim.region));
    out.push(b" CYCLE ");
    let cycle = from_lowest(&victim.cycle);
    add_parted(out, cycle.as_slice());
    out.push(b"\n");
}

/// Adds numbers with a comma between them, in 21 bytes at most each.
fn add_parted(out: &mut Printed, regions: &[u8])
    requires { 21 * length regions.now ≤ out.old.room }
    ensures text { out.new.text ≡ out.old.text ++ text.parted regions.now }
    ensures room { out.old.room ≤ out.new.room + 21 * length regions.now }
{
    let Some((first, others)) = regions.split_first() else {
        return;
    };
    out.push_number(u64::from(*first));
    for region in others {
        out.push(b",");
        out.push_number(u64::from(*region));
    }
}

/// A ring of regions, turned so that it begins with its lowest one.
fn from_lowest(cycle: &Cycle) -> Cycle
    ensures { result ≡ text.from_lowest cycle.now }
{
    let regions = cycle.as_slice();
    let place = lowest_place(regions);
    let mut turned = Cycle::new();
    append(&mut turned, &regions[place..]);
    append(&mut turned, &regions[..place]);
    turned
}

/// Adds regions at the end of a ring. There is room for them.
fn append(cycle: &mut Cycle, regions: &[u8])
    requires { length cycle.old + length regions.now ≤ 8 }
    ensures { cycle.new ≡ cycle.old ++ regions.now }
{
    for region in regions {
        cycle.push(*region);
    }
}

/// The place of the lowest region.
fn lowest_place(regions: &[u8]) -> usize
    ensures value { result ≡ position_or_len (text.is_lowest regions.now) regions.now }
    ensures within { result ≤ length regions.now }
{
    for (place, region) in regions.iter().enumerate() {
        if is_lowest(regions, *region) {
            return place;
        }
    }
    regions.len()
}

fn is_lowest(regions: &[u8], region: u8) -> bool
    ensures { result ≡ text.is_lowest regions.now region }
{
    regions.iter().all(|other| region <= *other)
}
