// The settings of an opening, commands, their classes.
ghost use Rattle.std.specs.Prelude.{◌≡◌};
ghost use Rattle.timing.specs.Kinds.{all_banks};
ghost use Rattle.timing.specs.Rules.{class_number, class_for};

use crate::kinds::CommandKind;

// What an opening says beside its twenty gaps, by the numbers that cross to C.
#[repr(C)]
#[derive(Clone, Copy, Default)]
pub struct Opening {
    pub ratio: u8,
    pub ranks: u8,
    pub mode: u8,
    // Which rules are in force (`editions`).
    pub edition: u8,
    pub client: u32,
}

#[derive(Clone, Copy)]
pub struct Command {
    pub kind: CommandKind,
    pub rank: u8,
    pub bank: u8,
}

// How near the banks of two commands are; its number picks the part of the table.
#[derive(Debug, Clone, Copy, PartialEq, Eq)]
pub enum Class {
    SameBank = 0,
    SameGroup = 1,
    Apart = 2,
}

impl Class {
    pub(crate) fn number(self) -> usize
        ensures { result ≡ class_number self }
    {
        self as usize
    }
}

// PREAB and REFAB name no bank.
pub fn all_banks(kind: CommandKind) -> bool
    ensures { result ≡ all_banks kind }
{
    matches!(kind, CommandKind::Preab | CommandKind::Refab)
}

// The class of two kinds whose banks are so near: apart if either names no bank.
pub fn class_for(first: CommandKind, second: CommandKind, near: Class) -> Class
    ensures { class_number result ≡ class_for first second (class_number near) }
{
    if all_banks(first) || all_banks(second) {
        Class::Apart
    } else {
        near
    }
}
