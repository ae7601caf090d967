//! The values of options, as they are written.
ghost use Rattle.std.specs.Prelude.{◌≡◌, ◌≤◌, IfSome};
ghost use Rattle.hpx_options.specs.Values.{number_in, port_in, op_word, op_named};

use crate::settings::Op;

/// The number that a text of digits is, if it is in a range.
pub(crate) fn number(text: &[u8], least: u128, greatest: u128) -> Option<u128>
    ensures value { result ≡ number_in least greatest text.now }
    ensures within { IfSome result (λ n. n ≤ greatest) }
{
    if text.starts_with(b"+") {
        return None;
    }
    match std::str::from_utf8(text) {
        Ok(text) => match text.parse::<u128>() {
            Ok(number) if least <= number && number <= greatest => Some(number),
            Ok(_) => None,
            Err(_) => None,
        },
        Err(_) => None,
    }
}

/// The port of an address of this machine, if it is in its range.
pub(crate) fn port(text: &[u8], greatest: u16) -> Option<u16>
    ensures { result ≡ port_in greatest text.now }
{
    let (host, port) = text.split_at_checked(10)?;
    match host {
        b"127.0.0.1:" | b"localhost:" => Some(number(port, 1, greatest.into())? as u16),
        _ => None,
    }
}

const ALL_OPS: [Op; 4] = [Op::Broadcast, Op::Reduce, Op::AllGather, Op::Scatter];

/// The word of an operation.
fn word_of(op: Op) -> &'static [u8]
    ensures { result.now ≡ op_word op }
{
    match op {
        Op::Broadcast => b"broadcast",
        Op::Reduce => b"reduce",
        Op::AllGather => b"all_gather",
        Op::Scatter => b"scatter",
    }
}

/// The operation that a word names.
pub(crate) fn op_named(word: &[u8]) -> Option<Op>
    ensures { result ≡ op_named word.now }
{
    for op in ALL_OPS {
        if word == word_of(op) {
            return Some(op);
        }
    }
    None
}
