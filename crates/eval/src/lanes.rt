// Instructions on the four words of an xmm.
// A kind is the byte that stands in the code, and no enum: docs/DECISIONS.md, "A kind is a byte".
// So is the number of an xmm: that its byte is below 16 each function asks of the bytes behind its kind, as `InsAt` gives it of code and place. A
// type of numbers below 16 would be made of the byte in each of them, by the same fact, and read nowhere else.
ghost use Rattle.std.specs.Prelude.{◌≡◌, true, List, ℕ, ◌+◌, ◌<◌, ◌≤◌, length, get_or};
ghost use Rattle.words.specs.Types.{quad32};
ghost use Rattle.code.specs.declared.tree.Instruction.TheVariants.{Pshufd, VPSLLDQ, Pextrq};
ghost use Rattle.code.specs.Records.{operand_at, behind};
ghost use Rattle.code.specs.Spells.{OperandsFrom};
ghost use Rattle.code.specs.Families.{is_quads, is_shifts, is_inserts, quads_ins, shifts_ins, inserts_ins};
ghost use Rattle.eval.specs.Config.{config};
ghost use Rattle.eval.specs.Instructions.{quads_word, quads_flags, shifts_word, inserts_word, run_ins};
ghost use Rattle.eval.specs.Promises.{env_of, Ran};

use crate::exit::{Exit, Stop};
use crate::lent::Lent;
use crate::operand::{load, put, resolve};
use machine::{State, set_xmm, xmm_at};
use words::{
    Quad32, add_lanes, equal_lanes, extract_nat64, insert_nat32, insert_nat64, quad32_xor,
    shift_quad, shl_lanes, shr_lanes, shuffle_lanes,
};

fn combined(kind: u8, x: Quad32, y: Quad32) -> Quad32
    requires { is_quads kind ≡ true }
    ensures { quad32 result ≡ quads_word kind (quad32 x) (quad32 y) }
{
    match kind {
        0x0f => add_lanes(x, y),
        0x10 => quad32_xor(x, y),
        0x14 => equal_lanes(y, x),
        // No other kind comes here.
        _ => x,
    }
}

// Of the three only Paddd touches the flags.
fn quads_flags(kind: u8, fill: u64, flags: u64) -> u64
    ensures { result ≡ quads_flags kind fill flags }
{
    if kind == 0x0f { fill } else { flags }
}

// Paddd, Pxor and Pcmpeqd.
pub fn two_quads(lent: &Lent, at: usize, state: &mut State) -> Exit
    requires at_in_bounds { at + 3 ≤ length lent.now.code.now }
    requires at_bound { get_or lent.now.code.now (at + 1) 0 < 16 }
    requires at_bound_2 { get_or lent.now.code.now (at + 2) 0 < 16 }
    requires at_value { is_quads (get_or lent.now.code.now at 0) ≡ true }
    ensures { let bs = lent.now.code.now in (values : List ℕ) → Ran (run_ins (env_of lent.now) at
        (quads_ins (get_or bs at 0) (get_or bs (at + 1) 0) (get_or bs (at + 2) 0))
        (config state.old values)) (at + 3) result
        (config state.new values) }
{
    let kind = lent.code[at];
    let dst = lent.code[at + 1];
    let q = combined(
        kind,
        xmm_at(&state.xmms, dst),
        xmm_at(&state.xmms, lent.code[at + 2]),
    );
    set_xmm(&mut state.xmms, dst, q);
    state.flags = quads_flags(kind, lent.fill, state.flags);
    Ok(at + 3)
}

fn shifted(kind: u8, q: Quad32, amount: u8) -> Quad32
    requires { is_shifts kind ≡ true }
    ensures { quad32 result ≡ shifts_word kind (quad32 q) amount }
{
    match kind {
        0x11 => shl_lanes(q, amount),
        0x12 => shr_lanes(q, amount),
        // No other kind comes here.
        _ => q,
    }
}

// Pslld and Psrld.
pub fn shift_words(lent: &Lent, at: usize, state: &mut State) -> Exit
    requires at_in_bounds { at + 3 ≤ length lent.now.code.now }
    requires at_bound { get_or lent.now.code.now (at + 1) 0 < 16 }
    requires at_value { is_shifts (get_or lent.now.code.now at 0) ≡ true }
    ensures { let bs = lent.now.code.now in (values : List ℕ) → Ran (run_ins (env_of lent.now) at
        (shifts_ins (get_or bs at 0) (get_or bs (at + 1) 0) (get_or bs (at + 2) 0))
        (config state.old values)) (at + 3) result
        (config state.new values) }
{
    let dst = lent.code[at + 1];
    let amount = lent.code[at + 2];
    if 31 < amount {
        return Stop::at(34, at);
    }
    let q = shifted(lent.code[at], xmm_at(&state.xmms, dst), amount);
    set_xmm(&mut state.xmms, dst, q);
    Ok(at + 3)
}

// Pshufd.
pub fn shuffle(lent: &Lent, at: usize, state: &mut State) -> Exit
    requires at_in_bounds { at + 4 ≤ length lent.now.code.now }
    requires at_bound { get_or lent.now.code.now (at + 1) 0 < 16 }
    requires at_bound_2 { get_or lent.now.code.now (at + 2) 0 < 16 }
    ensures { let bs = lent.now.code.now in (values : List ℕ) → Ran (run_ins (env_of lent.now) at
        (Pshufd (get_or bs (at + 1) 0) (get_or bs (at + 2) 0) (get_or bs (at + 3) 0))
        (config state.old values)) (at + 4) result
        (config state.new values) }
{
    let q = xmm_at(&state.xmms, lent.code[at + 2]);
    set_xmm(
        &mut state.xmms,
        lent.code[at + 1],
        shuffle_lanes(q, lent.code[at + 3]),
    );
    Ok(at + 4)
}

// VPSLLDQ.
pub fn shift_by_word(lent: &Lent, at: usize, state: &mut State) -> Exit
    requires at_in_bounds { at + 4 ≤ length lent.now.code.now }
    requires at_bound { get_or lent.now.code.now (at + 1) 0 < 16 }
    requires at_bound_2 { get_or lent.now.code.now (at + 2) 0 < 16 }
    ensures { let bs = lent.now.code.now in (values : List ℕ) → Ran (run_ins (env_of lent.now) at
        (VPSLLDQ (get_or bs (at + 1) 0) (get_or bs (at + 2) 0) (get_or bs (at + 3) 0))
        (config state.old values)) (at + 4) result
        (config state.new values) }
{
    if lent.code[at + 3] != 4 {
        return Stop::at(35, at);
    }
    let q = xmm_at(&state.xmms, lent.code[at + 2]);
    set_xmm(&mut state.xmms, lent.code[at + 1], shift_quad(q));
    Ok(at + 4)
}

// Pextrq.
pub fn extract(lent: &Lent, at: usize, state: &mut State, values: &mut [u64]) -> Exit
    requires operands_from { OperandsFrom 1 lent.now.code.now (at + 3) }
    requires at_bound { get_or lent.now.code.now (at + 1) 0 < 16 }
    requires long { length values.old ≡ length lent.now.addresses.now }
    ensures { let bs = lent.now.code.now in Ran (run_ins (env_of lent.now) at
        (Pextrq (operand_at bs (at + 3)) (get_or bs (at + 1) 0)
        (get_or bs (at + 2) 0))
        (config state.old values.old))
        (behind bs (at + 3)) result
        (config state.new values.new) }
{
    let dst = resolve(lent, at + 3, &state.regs, values);
    if 1 < dst.how {
        return Stop::at(dst.how, at);
    }
    let word = extract_nat64(xmm_at(&state.xmms, lent.code[at + 1]), lent.code[at + 2]);
    put(dst, word, &mut state.regs, values);
    Ok(dst.next)
}

fn inserted(kind: u8, q: Quad32, word: u64, index: u8) -> Quad32
    requires { is_inserts kind ≡ true }
    ensures { quad32 result ≡ inserts_word kind (quad32 q) word index }
{
    match kind {
        0x16 => insert_nat32(q, (word % 0x1_0000_0000) as u32, index),
        0x17 => insert_nat64(q, word, index),
        // No other kind comes here.
        _ => q,
    }
}

// Pinsrd and Pinsrq.
pub fn insert(lent: &Lent, at: usize, state: &mut State, values: &[u64]) -> Exit
    requires operands_from { OperandsFrom 1 lent.now.code.now (at + 3) }
    requires at_bound { get_or lent.now.code.now (at + 1) 0 < 16 }
    requires long { length values.now ≡ length lent.now.addresses.now }
    requires at_value { is_inserts (get_or lent.now.code.now at 0) ≡ true }
    ensures { let bs = lent.now.code.now in Ran (run_ins (env_of lent.now) at
        (inserts_ins (get_or bs at 0) (get_or bs (at + 1) 0)
        (operand_at bs (at + 3)) (get_or bs (at + 2) 0))
        (config state.old values.now))
        (behind bs (at + 3)) result
        (config state.new values.now) }
{
    let src = load(lent, at + 3, state, values);
    if src.number != 0 {
        return Stop::at(src.number, at);
    }
    let dst = lent.code[at + 1];
    let q = inserted(
        lent.code[at],
        xmm_at(&state.xmms, dst),
        src.word,
        lent.code[at + 2],
    );
    set_xmm(&mut state.xmms, dst, q);
    Ok(src.next)
}
