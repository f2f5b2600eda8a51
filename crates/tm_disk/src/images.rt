//! What syncs and cuts do to the sectors of a disk in memory. Each is kept as the number of the write that made it.
ghost use Rattle.std.specs.Prelude.{◌≡◌, ◌↔◌, ℕ, ◌-◌, ◌<◌, ◌≤◌, [], ◌∷◌, length, drop, All, IsTrue, slice_index, slice_index_or, slice_set};
ghost use Rattle.tm_disk.specs.Moments.{writes_to, picked, digits};
ghost use Rattle.tm_disk.specs.NumberedSectors.{made_by, image_by, chosen_by};

use crate::record::Record;

// Takes the sectors that were written, behind the writes that are settled, from another image.
pub fn take_over(numbers: &mut Vec<u32>, from: &[u32], writes: &Record, settled: usize)
    requires in_range { All (λ w. w.at < length numbers.old.items) writes.now.items }
    requires size { length numbers.old.items ≡ length from.now }
    requires settled_in { settled ≤ length writes.now.items }
    requires others { (k : ℕ) → writes_to k (drop settled writes.now.items) ≡ [] → slice_index_or numbers.old.items k 0 ≡ slice_index_or from.now k 0 }
    ensures { numbers.new.items ≡ from.now }
{
    for place in settled..writes.len() {
        let at = writes.at(place) as usize;
        numbers[at] = from[at];
    }
}

fn clear(counts: &mut Vec<u32>)
    ensures size { length counts.new.items ≡ length counts.old.items }
    ensures zeros { (k : ℕ) → k < length counts.old.items → slice_index counts.new.items k ≡ 0 }
{
    for count in counts.iter_mut() {
        *count = 0;
    }
}

// How often each sector was written, behind the writes that are settled.
fn count(counts: &mut Vec<u32>, writes: &Record, settled: usize)
    requires in_range { All (λ w. w.at < length counts.old.items) writes.now.items }
    requires few { length writes.now.items ≤ 262144 }
    requires settled_in { settled ≤ length writes.now.items }
    ensures size { length counts.new.items ≡ length counts.old.items }
    ensures counts { (k : ℕ) → k < length counts.old.items → slice_index counts.new.items k ≡ length (writes_to k (drop settled writes.now.items)) }
{
    clear(counts);
    for index in 0..writes.len() - settled {
        counts[writes.at(settled + index) as usize] += 1;
    }
}

// What the pick chooses of each sector, of which there were so many writes.
fn draw(counts: &mut Vec<u32>, pick: u64)
    ensures { counts.new.items ≡ digits pick counts.old.items }
{
    let mut rest = pick;
    for count in counts.iter_mut() {
        let choices = *count as u64 + 1;
        *count = (rest % choices) as u32;
        rest /= choices;
    }
}

// Counts down to 0: whether it came there now.
fn comes_to_0(left: &mut u32) -> bool
    ensures came { IsTrue result ↔ (left.old ≡ 1) }
    ensures left { left.new ≡ left.old - 1 }
{
    if *left == 0 {
        return false;
    }
    *left -= 1;
    *left == 0
}

// One write more to a sector: it is chosen where the count comes to 0.
fn choose_one(numbers: &mut Vec<u32>, left: &mut Vec<u32>, at: usize, number: u32)
    requires in_range { at < length numbers.old.items }
    requires same_size { length left.old.items ≡ length numbers.old.items }
    ensures left { left.new.items ≡ slice_set left.old.items at (slice_index left.old.items at - 1) }
    ensures numbers { numbers.new.items ≡ chosen_by (slice_index left.old.items at) numbers.old.items at number }
{
    let came = comes_to_0(&mut left[at]);
    if !came {
        return;
    }
    numbers[at] = number;
}

// Makes of the writes to each sector, behind those that are settled, the one that is so many on.
fn make_chosen(numbers: &mut Vec<u32>, left: &mut Vec<u32>, writes: &Record, settled: usize)
    requires in_range { All (λ w. w.at < length numbers.old.items) writes.now.items }
    requires few { length writes.now.items ≤ 262144 }
    requires settled_in { settled ≤ length writes.now.items }
    requires same_size { length left.old.items ≡ length numbers.old.items }
    ensures size { length numbers.new.items ≡ length numbers.old.items }
    ensures left { length left.new.items ≡ length left.old.items }
    ensures chosen { (k : ℕ) → k < length numbers.old.items → made_by writes.now.items (slice_index numbers.new.items k) ≡ slice_index_or (made_by writes.now.items (slice_index numbers.old.items k) ∷ writes_to k (drop settled writes.now.items)) (slice_index left.old.items k) (made_by writes.now.items (slice_index numbers.old.items k)) }
    ensures others { (k : ℕ) → writes_to k (drop settled writes.now.items) ≡ [] → slice_index numbers.new.items k ≡ slice_index numbers.old.items k }
    ensures within { All (λ n. n ≤ length writes.now.items) numbers.old.items → All (λ n. n ≤ length writes.now.items) numbers.new.items }
{
    for place in settled..writes.len() {
        let at = writes.at(place) as usize;
        choose_one(numbers, left, at, place as u32 + 1);
    }
}

// Leaves of each sector what the pick chooses of the writes behind those that are settled. The counts are scratch.
pub fn choose(
    numbers: &mut Vec<u32>,
    counts: &mut Vec<u32>,
    writes: &Record,
    settled: usize,
    pick: u64,
)
    requires in_range { All (λ w. w.at < length numbers.old.items) writes.now.items }
    requires few { length writes.now.items ≤ 262144 }
    requires settled_in { settled ≤ length writes.now.items }
    requires same_size { length counts.old.items ≡ length numbers.old.items }
    ensures picked { image_by writes.now.items numbers.new.items ≡ picked pick 0 (drop settled writes.now.items) (image_by writes.now.items numbers.old.items) }
    ensures others { (k : ℕ) → writes_to k (drop settled writes.now.items) ≡ [] → slice_index numbers.new.items k ≡ slice_index numbers.old.items k }
    ensures within { All (λ n. n ≤ length writes.now.items) numbers.old.items → All (λ n. n ≤ length writes.now.items) numbers.new.items }
    ensures size { length numbers.new.items ≡ length numbers.old.items }
    ensures counts { length counts.new.items ≡ length counts.old.items }
{
    count(counts, writes, settled);
    draw(counts, pick);
    make_chosen(numbers, counts, writes, settled);
}
