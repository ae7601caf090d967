ghost use Rattle.std.specs.Prelude.{◌≡◌, ◌++◌, ◌∷◌, ◌<◌, ◌≤◌, ◌^◌, [], length, OnOk, IfOk, FitsSigned, Some};
ghost use Rattle.std.specs.List.{AllByRecursion, flat_map};
ghost use Rattle.std.specs.Int.{w64};
ghost use Rattle.hpx_value.specs.Ids.{IsId};
ghost use Rattle.hpx_value.specs.Shapes.{AreValues, IsAct, IsState, IsValue};
ghost use Rattle.hpx_parcel.specs.Parcels.{IsParcel, FitsValue, FitsCont, FitsSlot, FitsAct, FitsState, FitsParcel, Spells};
ghost use Rattle.hpx_parcel.specs.Spelling.{number_text, int_text, id_text, first_text, without_first, value_text, ids_left, each_text, ids_after, values_text, slot_text, cont_text, ids_past, message_text, act_text, conts_text, ids_behind, state_text, text_of};
ghost use Rattle.hpx_parcel.specs.Reading.{parcel_of};

use crate::parcel::Parcel;
use byteorder::{BigEndian, ByteOrder};
use hpx_value::gid::Gid;
use hpx_value::items::{Bytes, Items};
use hpx_value::memory::OutOfMemory;
use hpx_value::value::{Act, Cont, State, Value};
use std::alloc::Global;

/// A number in two bytes, the highest first.
#[tactic(auto, unfolding(crate::specs::Spelling::number_text))]
fn put_u16(out: &mut Vec<u8>, n: u16) -> Result<(), OutOfMemory>
    ensures { OnOk result (out.new.items ≡ out.old.items ++ number_text 2 n) }
{
    let mut bytes = [0; 2];
    BigEndian::write_u16(&mut bytes, n);
    out.extend_from_slice(&bytes)?;
    Ok(())
}

/// A number in four bytes.
#[tactic(auto, unfolding(crate::specs::Spelling::number_text))]
fn put_u32(out: &mut Vec<u8>, n: u32) -> Result<(), OutOfMemory>
    ensures { OnOk result (out.new.items ≡ out.old.items ++ number_text 4 n) }
{
    let mut bytes = [0; 4];
    BigEndian::write_u32(&mut bytes, n);
    out.extend_from_slice(&bytes)?;
    Ok(())
}

/// A number in eight bytes.
#[tactic(auto, unfolding(crate::specs::Spelling::number_text))]
fn put_u64(out: &mut Vec<u8>, n: u64) -> Result<(), OutOfMemory>
    ensures { OnOk result (out.new.items ≡ out.old.items ++ number_text 8 n) }
{
    let mut bytes = [0; 8];
    BigEndian::write_u64(&mut bytes, n);
    out.extend_from_slice(&bytes)?;
    Ok(())
}

/// A number with a sign, in eight bytes.
#[tactic(auto, unfolding(crate::specs::Spelling::number_text))]
fn put_i64(out: &mut Vec<u8>, n: i64) -> Result<(), OutOfMemory>
    ensures { OnOk result (out.new.items ≡ out.old.items ++ int_text n) }
{
    let mut bytes = [0; 8];
    BigEndian::write_i64(&mut bytes, n);
    out.extend_from_slice(&bytes)?;
    Ok(())
}

/// The two halves of an id.
#[tactic(auto, unfolding(crate::specs::Spelling::id_text))]
fn put_id(out: &mut Vec<u8>, id: &Gid) -> Result<(), OutOfMemory>
    ensures text { OnOk result (out.new.items ≡ out.old.items ++ id_text id.now) }
    ensures valid { IsId id.now }
{
    let (msb, lsb) = (id.msb, id.lsb);
    put_u64(out, msb)?;
    put_u64(out, lsb)
}

/// The next id, if there is one. What follows is known to be ids where the rest is.
fn put_first<'a>(out: &mut Vec<u8>, ids: &'a [Gid]) -> Result<&'a [Gid], OutOfMemory>
    ensures text { OnOk result (out.new.items ≡ out.old.items ++ first_text ids.now) }
    ensures left { IfOk result (λ rest. rest.now ≡ without_first ids.now) }
    ensures valid { IfOk result (λ rest. AllByRecursion IsId rest.now → AllByRecursion IsId ids.now) }
{
    match ids {
        [] => Ok(ids),
        [id, rest @ ..] => {
            put_id(out, id)?;
            Ok(rest)
        }
    }
}

/// Numbers with a sign, one after the other.
fn put_ints(out: &mut Vec<u8>, numbers: &[i64]) -> Result<(), OutOfMemory>
    ensures text { OnOk result (out.new.items ≡ out.old.items ++ flat_map int_text numbers.now) }
    ensures fits { OnOk result (AllByRecursion (FitsSigned w64) numbers.now) }
{
    for number in numbers {
        put_i64(out, *number)?;
    }
    Ok(())
}

/// A length, and the bytes.
fn put_text(out: &mut Vec<u8>, text: &[u8]) -> Result<(), OutOfMemory>
    requires { length text.now ≤ 16384 }
    ensures text { OnOk result (out.new.items ≡ out.old.items ++ (number_text 2 (length text.now) ++ text.now)) }
    ensures fits { AllByRecursion (λ b. b < 256) text.now }
{
    put_u16(out, text.len() as u16)?;
    out.extend_from_slice(text)?;
    Ok(())
}

/// A value, with the next id where it is a Ref. The ids after it are handed back.
#[tactic(auto, unfolding(crate::specs::Spelling::value_text))]
fn put_value<'a>(out: &mut Vec<u8>, value: &Value, ids: &'a [Gid]) -> Result<&'a [Gid], OutOfMemory>
    requires { IsValue value.now }
    ensures text { OnOk result (out.new.items ≡ out.old.items ++ value_text ids.now value.now) }
    ensures left { IfOk result (λ rest. rest.now ≡ ids_left ids.now value.now) }
    ensures valid { IfOk result (λ rest. AllByRecursion IsId rest.now → AllByRecursion IsId ids.now) }
    ensures fits { OnOk result (FitsValue value.now) }
{
    match value {
        Value::Unit => {
            out.push(0)?;
            Ok(ids)
        }
        Value::Flag(flag) => {
            out.push(1)?;
            out.push(*flag as u8)?;
            Ok(ids)
        }
        Value::Int(number) => {
            out.push(2)?;
            put_i64(out, *number)?;
            Ok(ids)
        }
        Value::Text(text) => {
            out.push(3)?;
            put_text(out, text.as_slice())?;
            Ok(ids)
        }
        Value::Ref(_) => {
            out.push(4)?;
            put_first(out, ids)
        }
        Value::Fault(code) => {
            out.push(5)?;
            out.push(*code)?;
            Ok(ids)
        }
        Value::Ints(numbers) => {
            out.push(6)?;
            put_u16(out, numbers.len() as u16)?;
            put_ints(out, numbers.as_slice())?;
            Ok(ids)
        }
    }
}

/// Values one after the other, each Ref with the next id. The ids after them are handed back.
fn put_each<'a>(
    out: &mut Vec<u8>,
    values: &[Value],
    ids: &'a [Gid],
) -> Result<&'a [Gid], OutOfMemory>
    requires { AllByRecursion IsValue values.now }
    ensures text { OnOk result (out.new.items ≡ out.old.items ++ each_text ids.now values.now) }
    ensures left { IfOk result (λ rest. rest.now ≡ ids_after ids.now values.now) }
    ensures valid { IfOk result (λ rest. AllByRecursion IsId rest.now → AllByRecursion IsId ids.now) }
    ensures fits { OnOk result (AllByRecursion FitsValue values.now) }
{
    let mut rest = ids;
    for value in values {
        rest = put_value(out, value, rest)?;
    }
    Ok(rest)
}

/// How many values, and the values. The ids after them are handed back.
#[tactic(auto, unfolding(crate::specs::Spelling::values_text))]
fn put_values<'a>(
    out: &mut Vec<u8>,
    values: &[Value],
    ids: &'a [Gid],
) -> Result<&'a [Gid], OutOfMemory>
    requires { AreValues values.now }
    ensures text { OnOk result (out.new.items ≡ out.old.items ++ values_text ids.now values.now) }
    ensures left { IfOk result (λ rest. rest.now ≡ ids_after ids.now values.now) }
    ensures valid { IfOk result (λ rest. AllByRecursion IsId rest.now → AllByRecursion IsId ids.now) }
    ensures fits { OnOk result (AllByRecursion FitsValue values.now) }
{
    put_u16(out, values.len() as u16)?;
    put_each(out, values, ids)
}

/// An id and a slot.
#[tactic(auto, unfolding(crate::specs::Spelling::slot_text))]
fn put_slot<'a>(out: &mut Vec<u8>, cont: &Cont, ids: &'a [Gid]) -> Result<&'a [Gid], OutOfMemory>
    ensures text { OnOk result (out.new.items ≡ out.old.items ++ slot_text ids.now cont.now) }
    ensures left { IfOk result (λ rest. rest.now ≡ without_first ids.now) }
    ensures valid { IfOk result (λ rest. AllByRecursion IsId rest.now → AllByRecursion IsId ids.now) }
    ensures fits { OnOk result (cont.now.slot < 2 ^ 32) }
{
    let rest = put_first(out, ids)?;
    put_u32(out, cont.slot)?;
    Ok(rest)
}

/// A continuation, if there is one, with the next id. The ids after it are handed back.
#[tactic(auto, unfolding(crate::specs::Spelling::cont_text))]
fn put_cont<'a>(
    out: &mut Vec<u8>,
    cont: &Option<Cont>,
    ids: &'a [Gid],
) -> Result<&'a [Gid], OutOfMemory>
    ensures text { OnOk result (out.new.items ≡ out.old.items ++ cont_text ids.now cont.now) }
    ensures left { IfOk result (λ rest. rest.now ≡ ids_past ids.now cont.now) }
    ensures valid { IfOk result (λ rest. AllByRecursion IsId rest.now → AllByRecursion IsId ids.now) }
    ensures fits { OnOk result (FitsCont cont.now) }
{
    match cont {
        None => {
            out.push(0)?;
            Ok(ids)
        }
        Some(cont) => {
            out.push(1)?;
            put_slot(out, cont, ids)
        }
    }
}

/// An action, its name first.
#[tactic(auto, unfolding(crate::specs::Spelling::message_text, crate::specs::Spelling::act_text))]
fn put_act(out: &mut Vec<u8>, act: &Act) -> Result<(), OutOfMemory>
    requires { IsAct act.now }
    ensures text { OnOk result (out.new.items ≡ out.old.items ++ act_text act.now) }
    ensures fits { OnOk result (FitsAct act.now) }
{
    put_u16(out, act.origin)?;
    put_u64(out, act.serial)?;
    let rest = put_first(out, act.ids.as_slice())?;
    put_u16(out, act.code)?;
    let rest = put_values(out, act.args.as_slice(), rest)?;
    put_cont(out, &act.cont, rest)?;
    Ok(())
}

/// Kept continuations one after the other, each with the next id. The ids after them are handed back.
fn put_conts<'a>(
    out: &mut Vec<u8>,
    conts: &[Cont],
    ids: &'a [Gid],
) -> Result<&'a [Gid], OutOfMemory>
    ensures text { OnOk result (out.new.items ≡ out.old.items ++ conts_text ids.now conts.now) }
    ensures left { IfOk result (λ rest. rest.now ≡ ids_behind ids.now conts.now) }
    ensures valid { IfOk result (λ rest. AllByRecursion IsId rest.now → AllByRecursion IsId ids.now) }
    ensures fits { OnOk result (AllByRecursion FitsSlot conts.now) }
{
    let mut rest = ids;
    for cont in conts {
        rest = put_slot(out, cont, rest)?;
    }
    Ok(rest)
}

/// A state.
#[tactic(auto, unfolding(crate::specs::Spelling::state_text))]
fn put_state(out: &mut Vec<u8>, state: &State) -> Result<(), OutOfMemory>
    requires { IsState state.now }
    ensures text { OnOk result (out.new.items ≡ out.old.items ++ state_text state.now) }
    ensures fits { OnOk result (FitsState state.now) }
{
    put_u32(out, state.drawn)?;
    let rest = put_values(out, state.values.as_slice(), state.ids.as_slice())?;
    put_u16(out, state.conts.len() as u16)?;
    put_conts(out, state.conts.as_slice(), rest)?;
    Ok(())
}

/// Version 1, the kind of the parcel, and its fields.
#[tactic(auto, unfolding(crate::specs::Spelling::text_of))]
fn put_parcel(out: &mut Vec<u8>, parcel: &Parcel) -> Result<(), OutOfMemory>
    requires { IsParcel parcel.now }
    ensures text { OnOk result (out.new.items ≡ out.old.items ++ text_of parcel.now) }
    ensures fits { OnOk result (FitsParcel parcel.now) }
{
    out.push(1)?;
    match parcel {
        Parcel::Apply(act) => {
            out.push(1)?;
            put_act(out, act)
        }
        Parcel::Return(id) => {
            out.push(2)?;
            put_id(out, id)
        }
        Parcel::Ask { id, asker, entry } => {
            out.push(3)?;
            put_id(out, id)?;
            put_u16(out, *asker)?;
            put_u64(out, *entry)
        }
        Parcel::Give { id, entry } => {
            out.push(4)?;
            put_id(out, id)?;
            put_u64(out, *entry)
        }
        Parcel::Cached { id, place } => {
            out.push(5)?;
            put_id(out, id)?;
            put_u16(out, *place)
        }
        Parcel::Move(act) => {
            out.push(6)?;
            put_act(out, act)
        }
        Parcel::Go(act) => {
            out.push(7)?;
            put_act(out, act)
        }
        Parcel::Object { action, state } => {
            out.push(8)?;
            put_act(out, action)?;
            put_state(out, state)
        }
        Parcel::Landed { id, place } => {
            out.push(9)?;
            put_id(out, id)?;
            put_u16(out, *place)
        }
        Parcel::Free(id) => {
            out.push(10)?;
            put_id(out, id)
        }
    }
}

/// The one spelling of a parcel.
pub fn encode(alloc: Global, parcel: &Parcel) -> Result<Bytes, OutOfMemory>
    requires { IsParcel parcel.now }
    ensures text { IfOk result (λ bytes. bytes ≡ text_of parcel.now) }
    ensures spelled { IfOk result (λ bytes. Spells bytes parcel.now) }
    ensures read { IfOk result (λ bytes. parcel_of bytes ≡ Some parcel.now) }
{
    let mut out = Vec::new(alloc);
    put_parcel(&mut out, parcel)?;
    Ok(Items::from_vec(out))
}
