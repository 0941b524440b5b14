// The walk that writes a reading off the table.
ghost use Rattle.std.specs.Prelude.{◌≡◌, ◌+◌, ◌<◌, ◌≤◌, length, take};
ghost use Rattle.readings.specs.inner.Tables.{Recorded};
ghost use Rattle.readings.specs.inner.Cells.{shown};
ghost use Rattle.readings.specs.inner.Stages.{Reads, Stage, Turned, Longer};

use super::columns::Column;
use super::ends::find_end;
use super::ground::{Cell, Ground, Rules, Stretch};
use super::scale::Scale;
use super::spot::Spot;
use grammar::Symbol;

// How far the walk is: the name that it reads, the frames on its stack, the numbers written.
#[derive(Clone, Copy)]
pub struct Progress {
    pub name: usize,
    pub height: usize,
    pub written: usize,
}

// A turn of the walk: the frame on top is left, or its next symbol is written.
fn turn<S: Scale>(
    rules: Rules,
    ground: &Ground<S::Price>,
    stack: &mut [u32; 640],
    list: &mut [u8; 9984],
    mut at: Progress,
    column: &mut Column<S::Price, 21>,
) -> Progress
    requires bounds { (0 < at.height) × (at.written ≤ 9984) }
    requires recorded { Recorded rules.list.now S.Scale.measure ground.now.words.now (shown S.Scale.measure ground.now) }
    requires stage { Stage rules.list.now S.Scale.measure ground.now.words.now (shown S.Scale.measure ground.now) at.name stack.old at.height (take at.written list.old) }
    ensures turned { Turned rules.entry.list.now S.Scale.measure ground.now.words.now (shown S.Scale.measure ground.now) at.name stack.old at.height stack.new result.height (take result.written list.new) }
    ensures longer { Longer list.old at.written list.new result.written }
    ensures same { result.name ≡ at.name }
{
    let top = at.height - 1;
    let Spot { i, j, a, d, m } = Spot::from(stack[top]);
    let over = Stretch { ground, i, j };
    let k = over.rank_of(a);
    let rule = &rules.list[over.rule_of(a)];
    let right = &rule.symbols[..rule.len as usize];
    if d >= right.len() {
        at.height = top;
        return at;
    }
    let to = find_end::<S>(&Cell { over, k }, &right[d..], m, column);
    stack[top] = u32::from(Spot {
        i,
        j,
        a,
        d: d + 1,
        m: to,
    });
    match right[d] {
        Symbol::Word(_) => at,
        Symbol::Name(_) if to == m => {
            list[at.written] = 0;
            at.written += 1;
            at
        }
        Symbol::Name(b) => {
            let (i, j, a) = (m, to, b as usize);
            let below = Stretch { ground, i, j };
            list[at.written] = (below.rule_of(a) + 1) as u8;
            stack[at.height] = u32::from(Spot { i, j, a, d: 0, m });
            at.height += 1;
            at.written += 1;
            at
        }
    }
}

// The walk: writes what is left of the form, and answers the form's length.
pub(crate) fn write_form<S: Scale>(
    rules: Rules,
    ground: &Ground<S::Price>,
    stack: &mut [u32; 640],
    list: &mut [u8; 9984],
    from: Progress,
    column: &mut Column<S::Price, 21>,
) -> usize
    requires bounds { from.written ≤ 9984 }
    requires recorded { Recorded rules.list.now S.Scale.measure ground.now.words.now (shown S.Scale.measure ground.now) }
    requires stage { Stage rules.list.now S.Scale.measure ground.now.words.now (shown S.Scale.measure ground.now) from.name stack.old from.height (take from.written list.old) }
    ensures reads { Reads rules.entry.list.now S.Scale.measure ground.now.words.now (shown S.Scale.measure ground.now) from.name (take result list.new) }
    ensures longer { Longer list.old from.written list.new result }
    ensures short { result ≤ 9984 }
{
    let mut at = from;
    while at.height > 0 {
        at = turn::<S>(rules, ground, stack, list, at, column);
    }
    at.written
}
