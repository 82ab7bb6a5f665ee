// What the exported functions end in: the number that is returned, and values that are written into
// lent lists where these have room.

ghost use Rattle.std.specs.Prelude.{◌≡◌, true, Ok, ◌||◌, ltb, [], ◌∷◌, ◌++◌, length};
ghost use Rattle.model.specs.Refusals.{number, ◌when◌};
ghost use Rattle.model.specs.declared.Refusal.{Refusal};
ghost use Rattle.model.specs.Answers.{arrival_answer, outcome_by};
ghost use Rattle.model.specs.Outline.{corners};
ghost use Rattle.model.specs.Arrival.{admission_rules, arrive};
ghost use Rattle.model.specs.Saved.{saved};
ghost use Rattle.model.specs.Report.{report_rules};
ghost use Rattle.model.specs.Lent.{and_short};
ghost use Rattle.replies.specs.Served.{Served, ServedBoth, code_of, number_by, only};
ghost use Rattle.replies.specs.Replies.{arrival_told, length_told};

use crate::values::arrival_values;
use corners::listing::{corners_of, write_corners};
use hull::admitted;
use layout::{VERSION, saved_length};
use model::{Arrival, Point, Refusal, SoundMap};
use orbits::DartSet;
use saved::write_map;
use survey::lines::is_too_long;

// The number of an answer, as it is returned: that of its refusal, or 0.
#[tactic(auto, using(model::proofs::Answers::number_most))]
pub fn code<T: Copy>(answer: Result<T, Refusal>) -> u32
    ensures { result ≡ code_of answer }
{
    match answer {
        Ok(_) => 0,
        Err(refusal) => usize::from(refusal) as u32,
    }
}

// Whether two lent lists have room for so many members each: number 10.
// The two lent lists stay apart here and below, as C lends them.
pub fn check_room<A, B>(first: usize, out: &[A], second: usize, beside: &[B]) -> Result<(), Refusal>
    ensures { result ≡ outcome_by
        ((Refusal.ShortList when (ltb (length out.now) first || ltb (length beside.now) second)) ∷ []) }
{
    if out.len() < first || beside.len() < second {
        return Err(Refusal::ShortList);
    }
    Ok(())
}

// Writes values into a lent list: number 10.
pub fn write_values<T: Copy>(values: &[T], out: &mut [T]) -> Result<(), Refusal>
    ensures { Served (only values.now) out.old out.new (code_of result) }
{
    if out.len() < values.len() {
        return Err(Refusal::ShortList);
    }
    out[..values.len()].copy_from_slice(values);
    Ok(())
}

// Writes the words of a set of darts, and then its size, into a lent list: number 10.
pub fn write_darts(orbit: &DartSet, out: &mut [u64]) -> Result<(), Refusal>
    ensures { Served (only (orbit.now.words ++ orbit.now.size ∷ []))
        out.old out.new (code_of result) }
{
    if out.len() < 17 {
        return Err(Refusal::ShortList);
    }
    out[..16].copy_from_slice(&orbit.words);
    out[16] = orbit.size as u64;
    Ok(())
}

// Offers a point to a sound map, and writes the bytes of the map after it and the arrival:
// numbers 2 to 4 and 10.
pub fn write_admitted(
    sound: SoundMap<'_>,
    p: Point,
    out: &mut [u8],
    arrival: &mut [u64],
) -> Result<(), Refusal>
    ensures { ServedBoth (admission_rules sound.entry.map.now p) (saved (arrive sound.entry.map.now p).map)
        (arrival_told (arrival_answer (Ok (arrive sound.entry.map.now p).arrival))) out.old out.new
        arrival.old arrival.new (code_of result) }
{
    let offered = admitted(sound, p)?;
    let grown = SoundMap { map: &offered.map };
    write_offered(grown, offered.arrival, out, arrival)
}

// Writes the bytes of a sound map, and an arrival: number 10.
fn write_offered(
    sound: SoundMap<'_>,
    arrived: Arrival,
    out: &mut [u8],
    arrival: &mut [u64],
) -> Result<(), Refusal>
    ensures { ServedBoth [] (saved sound.entry.map.now)
        (arrival_told (arrival_answer (Ok arrived))) out.old out.new
        arrival.old arrival.new (code_of result) }
{
    let values = arrival_values(Ok(arrived));
    let length = saved_length(VERSION, sound.map.count);
    check_room(length, out, values.len(), arrival)?;
    write_map(sound, VERSION, out);
    write_values(&values, arrival)
}

// Writes the bytes of a sound map, and how many they are: number 10.
pub fn write_saved(sound: SoundMap<'_>, out: &mut [u8], length: &mut [usize]) -> Result<(), Refusal>
    ensures { ServedBoth [] (saved sound.entry.map.now) (length_told (saved sound.entry.map.now))
        out.old out.new length.old length.new (code_of result) }
{
    let bytes = saved_length(VERSION, sound.map.count);
    check_room(bytes, out, 1, length)?;
    write_map(sound, VERSION, out);
    length[0] = bytes;
    Ok(())
}

// Lists the corners of a sound map, and writes how many they are: number 10.
pub fn write_corner_list(
    sound: SoundMap<'_>,
    out: &mut [usize],
    count: &mut [usize],
) -> Result<(), Refusal>
    ensures { ServedBoth [] (corners sound.entry.map.now) (length (corners sound.entry.map.now) ∷ [])
        out.old out.new count.old count.new (code_of result) }
{
    let list = corners_of(sound);
    let listed = list.count;
    check_room(listed, out, 1, count)?;
    write_corners(&list, out);
    count[0] = listed;
    Ok(())
}

// Why a report is refused whose length there is no room for: number 9 or 10.
pub fn uncounted(text: &[u8]) -> Refusal
    ensures { number result ≡ number_by (and_short (report_rules text.now) true) }
{
    if is_too_long(text) {
        return Refusal::LongText;
    }
    Refusal::ShortList
}
