//! The scratch space of a machine.

ghost use Rattle.std.specs.Prelude.{◌≡◌, ◌++◌, IfOk, OnOk, Some, length, slice_get};
ghost use Rattle.avm_stepper.specs.Scratch.{is_zero_value, place_if_set, places_seen, set_places};

use crate::view::ScratchPlace;
use avm_cpu::Cpu;
use std::alloc::{AllocError, Global};
use teal_value::Value;

/// How many places a scratch space has (AVM specification, "Scratch Space").
const PLACES: u16 = 256;

/// Whether a value is the uint 0.
fn is_zero(value: &Value) -> bool
    ensures { result ≡ is_zero_value value.now }
{
    match value {
        Value::Uint(number) => *number == 0,
        Value::Bytes(_) => false,
    }
}

/// Appends a place, if its value is not the uint 0.
fn push_place(places: &mut Vec<ScratchPlace>, index: u8, value: &Value) -> Result<(), AllocError>
    ensures { OnOk result (places_seen places.new.items
        ≡ places_seen places.old.items ++ place_if_set index value.now) }
{
    if is_zero(value) {
        return Ok(());
    }
    let value = value.clone()?;
    places.push(ScratchPlace { index, value })?;
    Ok(())
}

/// The places of a scratch space that are not the uint 0, by rising index.
pub(crate) fn scratch_places(alloc: Global, cpu: &Cpu) -> Result<Vec<ScratchPlace>, AllocError>
    requires { length cpu.now.scratch ≡ 256 }
    ensures { IfOk result (λ places. places_seen places.items ≡ set_places 0 cpu.now.scratch) }
{
    let mut places = Vec::new(alloc);
    for place in 0..PLACES {
        let index = place as u8;
        push_place(&mut places, index, cpu.scratch(index))?;
    }
    Ok(places)
}
