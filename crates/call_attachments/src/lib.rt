// Attachments of the report that a buffer begins with, laid and dropped in place: the call drop, which judges the report
// first, and a put whose report and content have been judged.
#![tactic(auto)]

ghost use Rattle.std.specs.Prelude.{◌≡◌, [], ◌+◌, ◌*◌, ◌≤◌, Some, length};
ghost use Rattle.std.proofs.Math.Seq.{paste};
ghost use Rattle.format.specs.Nibbles.{nibbles, attachment, attachment_nibbles};
ghost use Rattle.format.specs.Calls as call;
ghost use Rattle.format.specs.Buffer.{after, effect};
ghost use Rattle.format.specs.Reply.{answer_of};
ghost use Rattle.report.specs.Found.{FoundBySome, Leaves};
ghost use Rattle.call_attachments.specs.Edit.{Resizable, resized, FineBySome, Puttable, PutEdit, new_size, with_put, without_id, has_room, putting, room_answer};

use format::{FlagTable, Outcome, Refusal, Reply};
use report::Report;
use tail::Held;

// The highest id of an attachment.
const LAST_ID: usize = 15;

// The nibbles of an attachment's header.
const HEADER: usize = 3;

// Nibbles of a report that give way to others: their place, how many they are, where the report ends, and how many
// attachments it has once they are replaced.
#[derive(Clone, Copy)]
struct Spot {
    at: usize,
    old: usize,
    end: usize,
    count: usize,
}

// ---- the nibbles behind a place moved

// Makes room for new nibbles in place of old ones, and clears what is left behind the report's new end, to the larger of
// the two ends.
fn resize(buffer: &mut [u8], spot: Spot, new: usize)
    requires { Resizable (length buffer.old) spot.at spot.old new spot.end }
    ensures { (nibbles buffer.new ≡ resized (nibbles buffer.old) spot.at spot.old new spot.end) × (length buffer.new ≡ length buffer.old) }
{
    let behind = spot.at + spot.old;
    let rest = spot.end - behind;
    let last = spot.at + new + rest;
    let cleared = 2 * spot.end.div_ceil(2).max(last.div_ceil(2));
    nibble_edit::shift(buffer, behind, spot.at + new, rest);
    nibble_edit::clear(buffer, last, cleared - last);
}

// ---- drop

// Commits a drop: takes the attachment that was found out of the report that was inspected.
#[tactic(auto, using(laws::proofs::Results::bytes_in, crate::proofs::Returns::count_some, report::proofs::Found::reach))]
fn commit_drop(buffer: &mut [u8], id: usize, report: Report, held: Held)
    requires { FoundBySome buffer.old id report × (report.held ≡ Some held) }
    ensures { buffer.new ≡ without_id buffer.old id }
{
    let old = HEADER + held.al;
    let spot = Spot {
        at: held.place,
        old,
        end: report.end,
        count: report.count - 1,
    };
    resize(buffer, spot, 0);
    card::set_count(buffer, spot.count);
}

// Removes from a report that was inspected.
fn remove_found(buffer: &mut [u8], id: usize, report: Report) -> Reply
    requires { FoundBySome buffer.old id report }
    ensures { Leaves buffer.old (call.edits (call.remove id)) (after (answer_of result) buffer.new []) }
{
    if !(1..=LAST_ID).contains(&id) {
        return Err(Refusal::Number);
    }
    let Some(held) = report.held else {
        return Err(Refusal::NoSuch);
    };
    commit_drop(buffer, id, report, held);
    Ok(Outcome::Nothing)
}

// Removes an attachment; the others keep their order.
pub fn remove(buffer: &mut [u8], id: usize, table: &FlagTable) -> Reply
    ensures { after (answer_of result) buffer.new [] ≡ effect table.now buffer.old (call.edits (call.remove id)) }
{
    let report = report::inspect(buffer, id, *table)?;
    remove_found(buffer, id, report)
}

// ---- put

// Lays the header and the nibbles of an attachment.
fn lay_attachment(buffer: &mut [u8], at: usize, id: usize, content: &[u8])
    requires { (at + (3 + length content.now) ≤ 2 * length buffer.old) × (at ≤ 65536) × FineBySome (attachment id content.now) }
    ensures { (nibbles buffer.new ≡ paste (nibbles buffer.old) at (attachment_nibbles (attachment id content.now)) (3 + length content.now))
        × (length buffer.new ≡ length buffer.old) }
{
    let al = content.len();
    nibble_edit::put(buffer, at, (al / 16) as u8);
    nibble_edit::put(buffer, at + 1, (al % 16) as u8);
    nibble_edit::put(buffer, at + 2, id as u8);
    nibble_copy::lay(buffer, at + HEADER, content);
}

// Commits a put that has been judged and has room: an attachment in place of old nibbles.
#[tactic(auto, using(laws::proofs::Results::bytes_in, crate::proofs::Returns::put_small))]
fn commit_put(buffer: &mut [u8], spot: Spot, id: usize, content: &[u8])
    requires { PutEdit buffer.old id content.now spot × (new_size spot.end spot.old (length content.now) ≤ length buffer.old) }
    ensures { buffer.new ≡ with_put buffer.old id content.now }
{
    resize(buffer, spot, HEADER + content.len());
    lay_attachment(buffer, spot.at, id, content);
    card::set_count(buffer, spot.count);
}

// Puts an attachment in place of old nibbles, if it has room there.
#[tactic(auto, using(laws::proofs::Results::bytes_in, crate::proofs::Returns::put_small))]
fn put_at(buffer: &mut [u8], spot: Spot, id: usize, content: &[u8]) -> Result<(), Refusal>
    requires { PutEdit buffer.old id content.now spot }
    ensures { (result ≡ room_answer (has_room buffer.old id content.now)) × (buffer.new ≡ putting buffer.old id content.now) }
{
    let nibbles = spot.end - spot.old + (HEADER + content.len());
    if buffer.len() < nibbles.div_ceil(2) {
        return Err(Refusal::Room);
    }
    commit_put(buffer, spot, id, content);
    Ok(())
}

// Puts an attachment to a report that was inspected, if it has room there: in place of the one of its id, or at the end.
#[tactic(auto, using(laws::proofs::Results::bytes_in, crate::proofs::Returns::append_count, crate::proofs::Returns::append_edit, crate::proofs::Returns::replace_edit, report::proofs::Found::reach))]
pub fn put_nibbles(
    buffer: &mut [u8],
    id: usize,
    report: Report,
    content: &[u8],
) -> Result<(), Refusal>
    requires { Puttable buffer.old id report content.now }
    ensures { (result ≡ room_answer (has_room buffer.old id content.now)) × (buffer.new ≡ putting buffer.old id content.now) }
{
    let end = report.end;
    let count = report.count;
    let Some(held) = report.held else {
        let spot = Spot {
            at: end,
            old: 0,
            end,
            count: count + 1,
        };
        return put_at(buffer, spot, id, content);
    };
    let spot = Spot {
        at: held.place,
        old: HEADER + held.al,
        end,
        count,
    };
    put_at(buffer, spot, id, content)
}
