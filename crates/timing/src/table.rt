// The rules 1 to 19 as one constant table of gap numbers, 882 over the editions and modes; two modes share their layers.
ghost use Rattle.std.specs.Prelude.{◌≡◌, ◌<◌, ◌-◌};
ghost use Rattle.timing.specs.Kinds.{code_of};
ghost use Rattle.timing.specs.Rules.{class_number, table_gap};
ghost use Rattle.timing.specs.Table.{layer_of};

use crate::editions::ANY_PRECHARGE;
use crate::kinds::CommandKind;
use crate::rules::{Class, Opening};

// Gap numbers over class, first and second kind; 0: none. Edition 0, mode 0.
const UNGROUPED: [u8; 147] = [
    1, 3, 3, 4, 4, 0, 0, 0, 5, 8, 9, 9, 0, 0, 0, 10, 5, 13, 13, 0, 0, 14, 0, 0, 16, 0, 0, 14, 15,
    0, 0, 0, 0, 15, 0, 17, 0, 0, 0, 0, 17, 0, 18, 0, 0, 0, 0, 0, 18, 2, 0, 0, 0, 4, 0, 0, 0, 5, 8,
    0, 9, 0, 0, 0, 10, 5, 0, 13, 0, 0, 0, 0, 0, 16, 0, 0, 0, 15, 0, 0, 0, 0, 15, 0, 17, 0, 0, 0, 0,
    17, 0, 0, 0, 0, 0, 0, 0, 19, 2, 0, 0, 0, 4, 0, 0, 0, 5, 8, 0, 9, 0, 0, 0, 10, 5, 0, 13, 0, 0,
    0, 0, 0, 16, 0, 0, 0, 15, 0, 0, 0, 0, 15, 0, 17, 0, 0, 0, 0, 17, 0, 0, 0, 0, 0, 0, 0, 19,
];

// Modes 1 and 2.
const GROUPED: [u8; 147] = [
    1, 3, 3, 4, 4, 0, 0, 0, 6, 8, 9, 9, 0, 0, 0, 11, 6, 13, 13, 0, 0, 14, 0, 0, 16, 0, 0, 14, 15,
    0, 0, 0, 0, 15, 0, 17, 0, 0, 0, 0, 17, 0, 18, 0, 0, 0, 0, 0, 18, 2, 0, 0, 0, 4, 0, 0, 0, 6, 8,
    0, 9, 0, 0, 0, 11, 6, 0, 13, 0, 0, 0, 0, 0, 16, 0, 0, 0, 15, 0, 0, 0, 0, 15, 0, 17, 0, 0, 0, 0,
    17, 0, 0, 0, 0, 0, 0, 0, 19, 2, 0, 0, 0, 4, 0, 0, 0, 7, 8, 0, 9, 0, 0, 0, 12, 7, 0, 13, 0, 0,
    0, 0, 0, 16, 0, 0, 0, 15, 0, 0, 0, 0, 15, 0, 17, 0, 0, 0, 0, 17, 0, 0, 0, 0, 0, 0, 0, 19,
];

// From edition 1 on: PREPB to REFAB and PREAB to REFPB too. Mode 0.
const UNGROUPED_SINCE_1: [u8; 147] = [
    1, 3, 3, 4, 4, 0, 0, 0, 5, 8, 9, 9, 0, 0, 0, 10, 5, 13, 13, 0, 0, 14, 0, 0, 16, 0, 15, 14, 15,
    0, 0, 0, 0, 15, 15, 17, 0, 0, 0, 0, 17, 0, 18, 0, 0, 0, 0, 0, 18, 2, 0, 0, 0, 4, 0, 0, 0, 5, 8,
    0, 9, 0, 0, 0, 10, 5, 0, 13, 0, 0, 0, 0, 0, 16, 0, 15, 0, 15, 0, 0, 0, 0, 15, 15, 17, 0, 0, 0,
    0, 17, 0, 0, 0, 0, 0, 0, 0, 19, 2, 0, 0, 0, 4, 0, 0, 0, 5, 8, 0, 9, 0, 0, 0, 10, 5, 0, 13, 0,
    0, 0, 0, 0, 16, 0, 15, 0, 15, 0, 0, 0, 0, 15, 15, 17, 0, 0, 0, 0, 17, 0, 0, 0, 0, 0, 0, 0, 19,
];

// Modes 1 and 2.
const GROUPED_SINCE_1: [u8; 147] = [
    1, 3, 3, 4, 4, 0, 0, 0, 6, 8, 9, 9, 0, 0, 0, 11, 6, 13, 13, 0, 0, 14, 0, 0, 16, 0, 15, 14, 15,
    0, 0, 0, 0, 15, 15, 17, 0, 0, 0, 0, 17, 0, 18, 0, 0, 0, 0, 0, 18, 2, 0, 0, 0, 4, 0, 0, 0, 6, 8,
    0, 9, 0, 0, 0, 11, 6, 0, 13, 0, 0, 0, 0, 0, 16, 0, 15, 0, 15, 0, 0, 0, 0, 15, 15, 17, 0, 0, 0,
    0, 17, 0, 0, 0, 0, 0, 0, 0, 19, 2, 0, 0, 0, 4, 0, 0, 0, 7, 8, 0, 9, 0, 0, 0, 12, 7, 0, 13, 0,
    0, 0, 0, 0, 16, 0, 15, 0, 15, 0, 0, 0, 0, 15, 15, 17, 0, 0, 0, 0, 17, 0, 0, 0, 0, 0, 0, 0, 19,
];

// The table's layer for an opening. A caller that looks up often takes it once: naming a constant array makes it anew each time.
pub fn table(opening: Opening) -> [u8; 147]
    ensures { result ≡ layer_of opening }
{
    match (opening.edition < ANY_PRECHARGE, opening.mode == 0) {
        (true, true) => UNGROUPED,
        (true, false) => GROUPED,
        (false, true) => UNGROUPED_SINCE_1,
        (false, false) => GROUPED_SINCE_1,
    }
}

// A kind's place in a row or a column of the table.
pub fn place_of(kind: CommandKind) -> usize
    ensures { (result ≡ code_of kind - 1) × (result < 7) }
{
    kind.number() as usize - 1
}

// The gap number at an entry of the opening's layer; 0 in a mode that no opening has.
pub fn gap_number(
    table: &[u8; 147],
    opening: Opening,
    class: Class,
    first: CommandKind,
    second: CommandKind,
) -> usize
    requires { table.now ≡ layer_of opening }
    ensures { result ≡ table_gap opening (class_number class) first second }
{
    if 3 <= opening.mode {
        return 0;
    }
    let row = place_of(first);
    let column = place_of(second);
    usize::from(table[(class.number() * 7 + row) * 7 + column])
}
