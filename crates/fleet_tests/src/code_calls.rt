//! Program bytes and hexadecimal text: each change of the pair's bytes, and as many moves as version 1 has no bytes
//! for.

use crate::due::{due_bytes, due_numbers};
use crate::fleets::{PAIR_BYTES, PAIR_BYTES_2, PAIR_HEX};
use crate::model_calls::told_by;
use fleet_code::{
    CodeView, EncodeFault, HexFault, LoadFault, encode, encode2, load, read_hex, view,
    view_and_load,
};
use fleet_model::ProgramView;
use std::alloc::Global;
use std::process::Abort;
use std::test::Fail;

#[test]
fn programs_are_read_and_written(rt: HostRuntime) -> Result<(), Fail> {
    let alloc = rt.alloc();
    due_bytes(&rt, &read_hex(alloc, PAIR_HEX)?, PAIR_BYTES);
    assert!(rt;
        matches!(
            read_hex(alloc, b"4G").err(),
            Some(HexFault::Digit { at: 1 })
        )
    );
    assert!(rt; matches!(read_hex(alloc, b"4D5").err(), Some(HexFault::Odd)));
    due_pair(&rt, alloc, PAIR_BYTES)?;
    due_pair(&rt, alloc, PAIR_BYTES_2)
}

/// The pair's program, in either version, is written in both.
fn due_pair(rt: &impl Abort, alloc: Global, bytes: &[u8]) -> Result<(), Fail> {
    let program = load(alloc, bytes)?;
    due_bytes(rt, &encode(alloc, &program)?, PAIR_BYTES);
    due_bytes(rt, &encode2(alloc, &program)?, PAIR_BYTES_2);
    let viewed: CodeView<'_> = view(alloc, bytes)?;
    assert!(*rt; viewed.agents() == 2);
    Ok(())
}

/// The number of a refusal, with the offset that it names, or 0.
pub fn load_number(fault: LoadFault) -> (u8, u64) {
    match fault {
        LoadFault::OutOfMemory => (1, 0),
        LoadFault::Magic => (2, 0),
        LoadFault::Truncated => (3, 0),
        LoadFault::AgentCount => (4, 0),
        LoadFault::Total => (5, 0),
        LoadFault::Opcode { at } => (6, at),
        LoadFault::AwaitAgent { at } => (7, at),
        LoadFault::AwaitOrder { at } => (8, at),
        LoadFault::AwaitCount { at } => (9, at),
        LoadFault::Trailing { at } => (10, at),
    }
}

/// The refusal of both `view` and `load`, or (0, 0) if both have the same program and it is written as these bytes.
fn answer_to(alloc: Global, bytes: &[u8]) -> Result<(u8, u64), Fail> {
    let (viewed, loaded) = view_and_load(alloc, bytes);
    let viewed = match viewed {
        Ok(viewed) => viewed,
        Err(fault) => {
            let answer = load_number(fault);
            return match loaded {
                Err(other) if load_number(other) == answer => Ok(answer),
                _ => Err(Fail::from("one is loaded, or refused otherwise")),
            };
        }
    };
    let program = loaded?;
    let told = told_by(alloc, &program)?;
    if told_by(alloc, &viewed)?.as_slice() != told.as_slice() {
        return Err(Fail::from("two programs"));
    }
    if encode(alloc, &program)?.as_slice() != bytes {
        return Err(Fail::from("other bytes"));
    }
    Ok((0, 0))
}

/// How many of the bytes that differ from these at this place alone are a program. Both readers answer alike, and what
/// they accept is written as it was. The bytes stay as they are.
fn accepted_at(alloc: Global, bytes: &mut [u8], at: usize) -> Result<u32, Fail> {
    let mut accepted = 0u32;
    for turn in 1..=256u16 {
        if let Some(byte) = bytes.get_mut(at) {
            *byte = byte.wrapping_add(1);
        }
        let answer = answer_to(alloc, bytes)?;
        if turn < 256 && answer == (0, 0) {
            accepted = accepted.saturating_add(1);
        }
    }
    Ok(accepted)
}

#[test]
fn changed_programs_are_read_alike(rt: HostRuntime) -> Result<(), Fail> {
    let mut bytes = PAIR_BYTES.to_vec(rt.alloc())?;
    let mut accepted = 0u32;
    for at in 0..PAIR_BYTES.len() {
        accepted = accepted.saturating_add(accepted_at(rt.alloc(), &mut bytes, at)?);
    }
    due_numbers(&rt, &[accepted], &[5110]);
    Ok(())
}

/// The program of the bytes is written as these in version 2 alone.
fn due_version_2(rt: &impl Abort, alloc: Global, bytes: &[u8]) -> Result<(), Fail> {
    let program = load(alloc, bytes)?;
    assert!(*rt; matches!(encode(alloc, &program).err(), Some(EncodeFault::TooLong)));
    let again = encode2(alloc, &program)?;
    assert!(*rt; again.as_slice() == bytes);
    Ok(())
}

/// One agent that goes to and fro 65,536 times: version 1 has two bytes for the number of its moves.
#[test]
fn long_programs_have_version_2_alone(rt: HostRuntime) -> Result<(), Fail> {
    let alloc = rt.alloc();
    let mut bytes = b"MPF2\0\x01\0\0\0\0\0\0\0\0\0\x01\0\0".to_vec(alloc)?;
    for _ in 0..32_768 {
        bytes.extend_from_slice(b"\x01\x03")?;
    }
    due_version_2(&rt, alloc, &bytes)
}
