//! Values, actions and states that are looked at, and not kept.

ghost use Rattle.std.specs.Prelude.{◌≡◌, ◌≤◌, ◌==◌, ℕ, None, IfOk, if◌then◌else◌};
ghost use Rattle.hpx_parcel.specs.Reading.{id_list, ints_at, plain_at, value_at, each_at, values_at, conts_at, call_at, act_at, state_at};
ghost use Rattle.hpx_parcel.specs.Outlines.{Shows, takes_place, place_by, place_of, most_home, plain_part, value_part, values_part, list_part, message_part, act_part, conts_part, state_part};

use crate::acts::{ActRule, LONGEST_PART, MOST_IDS, REFS_END, cont_of, link_of};
use crate::fields::{
    IdRule, Stop, byte_of, count_of, cut_off, id_with, stop_at, u16_of, u32_of, u64_of,
};
use crate::parcel::Why;
use crate::values::{MOST_INTS, MOST_VALUES, small_of, text_in};
use hpx_value::gid::Gid;
use hpx_value::value::Value;

/// What is kept of values: how many ids there are, their greatest home, and the place of a MOVE that the last value is.
#[derive(Clone, Copy)]
pub(crate) struct Glance {
    pub(crate) ids: u16,
    pub(crate) most: u32,
    pub(crate) to: Option<u32>,
}

/// What is kept of an action: its target, where it moves it, and the greatest locality in its name and its ids.
#[derive(Clone, Copy)]
pub(crate) struct ActOutline {
    pub(crate) target: Gid,
    pub(crate) to: Option<u32>,
    pub(crate) most: u32,
}

impl ActRule {
    /// Whether such an action may have a place, or none, in its arguments.
    fn takes_place(self, to: Option<u32>) -> bool
        ensures { result ≡ takes_place self to }
    {
        match self {
            ActRule::Applied => true,
            ActRule::Moves => to.is_some(),
        }
    }

    /// Where such an action moves its target.
    fn place(self, to: Option<u32>) -> Option<u32>
        ensures { result ≡ place_by self to }
    {
        match self {
            ActRule::Applied => None,
            ActRule::Moves => to,
        }
    }
}

/// The place that a value is for a MOVE.
pub(crate) fn place_of(value: &Value) -> Option<u32>
    ensures { result ≡ place_of value.now }
{
    match value {
        Value::Int(to) if 0 <= *to && *to < 64 => Some(*to as u32),
        _ => None,
    }
}

/// The greatest home of an id, if there is one, and of what was there before.
fn most_with(most: u32, id: Option<Gid>) -> u32
    ensures { result ≡ most_home most (id_list id) }
{
    match id {
        Some(id) => most.max(id.home()),
        None => most,
    }
}

/// The bytes behind a count of numbers, and these.
#[tactic(auto, unfolding(crate::specs::Reading::ints_at))]
fn past_ints(bytes: &[u8]) -> Result<&[u8], Stop>
    ensures { Shows (λ x. x.1) (λ x. x.now) result (ints_at bytes.now) }
{
    let (count, rest) = count_of(MOST_INTS, bytes)?;
    let len = 8 * count as usize;
    if rest.len() < len {
        return Err(cut_off());
    }
    let (_, after) = rest.split_at(len);
    Ok(after)
}

/// The place of a MOVE that a value other than a Ref is, behind its tag; another tag is a fault at the first of `bytes`.
#[tactic(auto, unfolding(crate::specs::Reading::plain_at))]
fn plain_in<'a>(tag: u8, bytes: &[u8], rest: &'a [u8]) -> Result<(Option<u32>, &'a [u8]), Stop>
    ensures { Shows plain_part (λ x. (x.0, x.1.now)) result (plain_at tag bytes.now rest.now) }
{
    match tag {
        3 => {
            let (_text, after) = text_in(rest)?;
            Ok((None, after))
        }
        6 => {
            let after = past_ints(rest)?;
            Ok((None, after))
        }
        _ => {
            let (value, after) = small_of(tag, bytes, rest)?;
            Ok((place_of(&value), after))
        }
    }
}

/// A value, behind those that were looked at; the id of a Ref comes to stand below the limit.
#[tactic(auto, unfolding(crate::specs::Reading::value_at))]
fn value_in(limit: u16, seen: Glance, bytes: &[u8]) -> Result<(Glance, &[u8]), Stop>
    ensures given { Shows (value_part seen) (λ x. (x.0, x.1.now)) result (value_at limit seen.ids bytes.now) }
    ensures few { IfOk result (λ x. seen.ids ≤ limit → x.0.ids ≤ limit) }
{
    let (tag, rest) = byte_of(bytes)?;
    if tag != 4 {
        let (to, after) = plain_in(tag, bytes, rest)?;
        return Ok((Glance { to, ..seen }, after));
    }
    if seen.ids >= limit {
        return Err(stop_at(bytes, Why::BadValue));
    }
    match id_with(IdRule::Named, rest) {
        Ok((id, after)) => Ok((
            Glance {
                ids: seen.ids + 1,
                most: seen.most.max(id.home()),
                to: None,
            },
            after,
        )),
        Err(stop) => Err(stop),
    }
}

/// So many values, behind those that were looked at.
fn each_in(limit: u16, count: u16, before: Glance, bytes: &[u8]) -> Result<(Glance, &[u8]), Stop>
    ensures given { Shows (values_part before) (λ x. (x.0, x.1.now)) result (each_at limit before.ids count bytes.now) }
    ensures few { IfOk result (λ x. before.ids ≤ limit → x.0.ids ≤ limit) }
{
    let mut seen = before;
    let mut rest = bytes;
    for _ in 0..count {
        match value_in(limit, seen, rest) {
            Ok((next, after)) => {
                seen = next;
                rest = after;
            }
            Err(stop) => return Err(stop),
        }
    }
    Ok((seen, rest))
}

/// The place that the only value is, if there is one value.
fn only(count: u16, to: Option<u32>) -> Option<u32>
    ensures { result ≡ (if count == 1 then to else None) }
{
    if count == 1 { to } else { None }
}

/// A count of values, at most 1,024, and these, behind so many ids and their greatest home.
#[tactic(auto, unfolding(crate::specs::Reading::values_at))]
fn values_in(limit: u16, ids: u16, most: u32, bytes: &[u8]) -> Result<(Glance, &[u8]), Stop>
    ensures given { Shows (list_part ids most) (λ x. (x.0, x.1.now)) result (values_at limit ids bytes.now) }
    ensures few { IfOk result (λ x. ids ≤ limit → x.0.ids ≤ limit) }
{
    let (count, rest) = count_of(MOST_VALUES, bytes)?;
    let before = Glance {
        ids,
        most,
        to: None,
    };
    let (seen, after) = each_in(limit, count, before, rest)?;
    let to = only(count, seen.to);
    Ok((Glance { to, ..seen }, after))
}

/// An action without its name, behind its target: the place in its arguments, and the greatest home in it.
#[tactic(auto, unfolding(crate::specs::Reading::call_at, crate::specs::Reading::ended_at))]
fn call_in(
    rule: ActRule,
    most: u32,
    target: Gid,
    bytes: &[u8],
) -> Result<(Option<u32>, u32, &[u8]), Stop>
    ensures { Shows (message_part most) (λ x. (target, x.0, x.1, x.2.now)) result (call_at rule target bytes.now) }
{
    let (code, rest) = u16_of(bytes)?;
    if !rule.takes_code(code) {
        return Err(stop_at(bytes, Why::BadValue));
    }
    let (seen, after) = values_in(REFS_END, 1, most.max(target.home()), rest)?;
    if !rule.takes_place(seen.to) {
        return Err(stop_at(rest, Why::BadValue));
    }
    match cont_of(seen.ids, after) {
        Ok((_cont, id, last)) => Ok((seen.to, most_with(seen.most, id), last)),
        Err(stop) => Err(stop),
    }
}

/// An action that such a field takes, of at most 65,000 bytes.
#[tactic(auto, unfolding(crate::specs::Reading::act_at, crate::specs::Reading::long_act_at, crate::specs::Reading::message_at))]
pub(crate) fn act_in(rule: ActRule, bytes: &[u8]) -> Result<(ActOutline, &[u8]), Stop>
    ensures { Shows act_part (λ x. (x.0, x.1.now)) result (act_at rule bytes.now) }
{
    let (origin, rest) = u16_of(bytes)?;
    let (_serial, rest) = u64_of(rest)?;
    match id_with(rule.target(), rest) {
        Ok((target, rest)) => {
            let (to, most, rest) = call_in(rule, origin as u32, target, rest)?;
            if rest.len() + LONGEST_PART < bytes.len() {
                return Err(stop_at(bytes, Why::BadValue));
            }
            let to = rule.place(to);
            Ok((ActOutline { target, to, most }, rest))
        }
        Err(stop) => Err(stop),
    }
}

/// Kept continuations: the greatest home of their ids, and of what was there before.
fn conts_in(before: u32, count: u16, bytes: &[u8]) -> Result<(u32, &[u8]), Stop>
    ensures { (place : ℕ) → Shows (conts_part before) (λ x. (x.0, x.1.now)) result (conts_at place count bytes.now) }
{
    let mut most = before;
    let mut rest = bytes;
    for _ in 0..count {
        match link_of(rest) {
            Ok((link, after)) => {
                most = most.max(link.id.home());
                rest = after;
            }
            Err(stop) => return Err(stop),
        }
    }
    Ok((most, rest))
}

/// A state, of at most 65,000 bytes: the greatest home of its ids, and of what was there before.
#[tactic(auto, unfolding(crate::specs::Reading::state_at, crate::specs::Reading::long_state_at, crate::specs::Reading::kept_at))]
pub(crate) fn state_in(before: u32, bytes: &[u8]) -> Result<(u32, &[u8]), Stop>
    ensures { Shows (state_part before) (λ x. (x.0, x.1.now)) result (state_at bytes.now) }
{
    let (_drawn, rest) = u32_of(bytes)?;
    let (seen, rest) = values_in(MOST_IDS, 0, before, rest)?;
    let (count, rest) = count_of(MOST_IDS - seen.ids, rest)?;
    let (most, rest) = conts_in(seen.most, count, rest)?;
    if rest.len() + LONGEST_PART < bytes.len() {
        return Err(stop_at(bytes, Why::BadValue));
    }
    Ok((most, rest))
}
