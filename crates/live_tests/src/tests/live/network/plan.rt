//! A run by its words.

use arrayvec::ArrayVec;
use lk_outside::{BIND, RECEIVE, SEND};

/// What is given to a run.
#[derive(Drop)]
pub struct Plan {
    pub gates: ArrayVec<u16, 4>,
    pub limits: ArrayVec<(u8, u64), 9>,
    pub coming: ArrayVec<(u8, i64), 32>,
    pub queue: ArrayVec<u8, 32>,
}

impl Plan {
    pub fn new() -> Plan {
        Plan {
            gates: ArrayVec::new(),
            limits: ArrayVec::new(),
            coming: ArrayVec::new(),
            queue: ArrayVec::new(),
        }
    }

    pub fn limit(&mut self, kind: u8, number: u64) {
        let _room = self.limits.try_push((kind, number));
    }

    fn keep(&mut self, letter: u8, number: i64) {
        match letter {
            b' ' => {}
            b'g' => {
                let _room = self.gates.try_push(number.clamp(0, 9) as u16);
            }
            b'v' => self.limit(BIND, number.unsigned_abs()),
            b'f' => self.limit(RECEIVE, number.unsigned_abs()),
            b'w' => self.limit(SEND, number.unsigned_abs()),
            b'@' | b'm' | b'h' | b'!' => self.limit(letter, number.unsigned_abs()),
            b'c' | b's' | b't' | b'u' | b'q' => {
                let _room = self.queue.try_push(letter);
            }
            _ => {
                let _room = self.coming.try_push((letter, number));
            }
        }
    }
}

/// The run of these words: letters, each with its number, parted by spaces. `g` is a gate with so many destinations; `v`, `f` and `w` are
/// the bind, the receive and the send that fail; all others stand as in `Given`. A number may begin with a minus and have underscores.
pub fn plan_of(words: &str) -> Plan {
    let mut plan = Plan::new();
    let mut letter = b' ';
    let mut number = 0i64;
    let mut minus = false;
    for byte in words.bytes() {
        match byte {
            b'_' => {}
            b'-' => minus = true,
            b'0'..=b'9' => number = longer(number, byte, minus),
            _ => {
                plan.keep(letter, number);
                letter = byte;
                number = 0;
                minus = false;
            }
        }
    }
    plan.keep(letter, number);
    plan
}

// The number with one more digit, which counts down behind a minus.
fn longer(number: i64, digit: u8, minus: bool) -> i64 {
    let digit = i64::from(digit.wrapping_sub(b'0'));
    let ten = number.wrapping_mul(10);
    if minus {
        ten.wrapping_sub(digit)
    } else {
        ten.wrapping_add(digit)
    }
}
