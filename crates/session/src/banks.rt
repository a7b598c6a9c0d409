// Which banks are open, in one number: a bit for each bank, the sixteen of rank 0 first. What goes by a command's kind is a choice between
// numbers, of which the compiler makes no branch: with a branch for each kind a restore took 1.06 of it.
ghost use Rattle.std.specs.Prelude.{◌≡◌, cond, ◌*◌, ◌^◌, ◌≤◌, ◌<◌, eqb};
ghost use Rattle.timing.specs.Banks.{banks};
ghost use Rattle.session.specs.State.{first_bit, banks_after};
ghost use Rattle.session.specs.Banks.{looked_at, wanted, bit_for, wrong_by};

use crate::placed::Placed;
use crate::slots::Slot;
use crate::state::RANK_SLOTS;
use timing::editions::BANK_STATES;
use timing::kinds::CommandKind;
use timing::rules::{Command, Opening, all_banks};

// The first bit of a slot's rank.
fn first_bit(slot: Slot) -> u32
    ensures { (result ≡ first_bit slot.place) × (result ≤ 16) }
{
    if slot.place < RANK_SLOTS {
        return 0;
    }
    16
}

// What a command opens, and what it closes, by the place of its kind: ACT (0) its bank; PREPB (3) its own, PREAB (4) all of its rank.
fn opening_bits(place: usize, bit: u32) -> u32
    requires { bit < 32 }
    ensures { result ≡ cond (eqb place 0) (2 ^ bit) 0 }
{
    if place == 0 {
        return 1u32 << bit;
    }
    0
}

fn closing_bits(place: usize, bit: u32, first: u32) -> u32
    requires { (bit < 32) × (first ≤ 16) }
    ensures { result ≡ cond (eqb place 3) (2 ^ bit) (cond (eqb place 4) (65535 * 2 ^ first) 0) }
{
    if place == 3 {
        return 1u32 << bit;
    }
    if place == 4 {
        return 65535u32 << first;
    }
    0
}

// Which banks are open behind the command of a slot.
pub fn banks_after(up: u32, slot: Slot) -> u32
    ensures { result ≡ banks_after up slot.place }
{
    let first = first_bit(slot);
    let bit = first + (slot.place % 16) as u32;
    let place = slot.place / 16 % 7;
    let closing = closing_bits(place, bit, first);
    let opening = opening_bits(place, bit);
    (up - (up & closing)) | opening
}

fn looked_at(kind: CommandKind) -> u32
    ensures { result ≡ looked_at kind }
{
    match kind {
        CommandKind::Act | CommandKind::Rd | CommandKind::Wr | CommandKind::Refpb => 1,
        CommandKind::Prepb | CommandKind::Preab => 0,
        CommandKind::Refab => 65535,
    }
}

fn wanted(kind: CommandKind) -> u32
    ensures { result ≡ wanted kind }
{
    u32::from(matches!(kind, CommandKind::Rd | CommandKind::Wr))
}

fn bit_for(kind: CommandKind, rank: u8, bank: u8) -> u32
    requires { bank < banks }
    ensures { (result ≡ bit_for kind rank bank) × (result < 32) }
{
    let first = u32::from(rank) % 2 * 16;
    if all_banks(kind) {
        return first;
    }
    first + u32::from(bank)
}

// Line 12, from edition 2 on.
pub fn wrong_bank(up: u32, opening: Opening, placed: Placed) -> bool
    ensures { result ≡ wrong_by up opening placed.command }
{
    if opening.edition < BANK_STATES {
        return false;
    }
    let Command { kind, rank, bank } = placed.command;
    let bit = bit_for(kind, rank, bank);
    (up >> bit) & looked_at(kind) != wanted(kind)
}
