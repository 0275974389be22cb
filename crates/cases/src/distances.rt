// Tables of distances. The input has the horizon, the number of events and that of rules, four bytes each, and the rules, six bytes each.
// Rests on crates `table`, `script` and `forms`.
ghost use Rattle.std.specs.Prelude.{◌≤◌, ◌≡◌, length};

use script::{lent, print};
use std::io;
use ticket::Refusal;

// The numbers up to the last that has changed.
fn changed(out: &[i32]) -> &[i32]
    ensures { length result.now ≤ length out.now }
{
    let n = out.iter().rposition(|x| *x != 7).map_or(0, |k| k + 1);
    &out[..n]
}

// Print a table: all numbers up to the last that has changed, which is a 0.
fn show(rt: &impl Print, out: &[i32]) -> io::Result<()> {
    for x in changed(out) {
        print::signed(rt, *x)?;
    }
    Ok(())
}

// The rules are as many as the shortest of the three slices has.
fn answer(input: &[u8], out: &mut [i32]) -> Result<(), Refusal> {
    let mut from = lent::output();
    let mut to = lent::output();
    let mut bound = [7i32; 1700];
    forms::spread(script::byte, input, 12, 6, &mut from);
    forms::spread(script::byte, input, 13, 6, &mut to);
    forms::spread(forms::bound_at, input, 14, 6, &mut bound);
    ask(
        input,
        lent::part(&from, script::four(input, 8) as usize),
        &to,
        &bound,
        out,
    )
}

fn ask(
    input: &[u8],
    from: &[u8],
    to: &[u8],
    bound: &[i32],
    out: &mut [i32],
) -> Result<(), Refusal> {
    table::table_of_slices(
        script::four(input, 0),
        script::four(input, 4),
        from,
        to,
        bound,
        out,
    )
}

fn answer_in(input: &[u8], room: usize, out: &mut [i32]) -> Result<(), Refusal> {
    let n = room.min(out.len());
    answer(input, &mut out[..n])
}

pub fn table(rt: &impl Print, input: &[u8], room: usize) -> io::Result<()> {
    let mut out = [7i32; 1700];
    let answer = answer_in(input, room, &mut out);
    print::number(rt, ticket::answer_number(&answer))?;
    show(rt, &out)?;
    print::end(rt, true)
}
