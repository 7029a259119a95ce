//! The stack, the scratch space, the constants in force and the place of one run.

ghost use Rattle.std.specs.Prelude.{◌≡◌, ◌+◌, ◌<◌, ◌≤◌, ◌∷◌, [], length, drop, reverse, replicate, take, slice_get, slice_set, IfErr, IfOk, MatchOption, MatchResult, Ok, Err, Some, None};
ghost use Rattle.std.specs.Option.{option_copied};
ghost use Rattle.teal_value.specs.declared.fault.Fault.TheVariants.{StackFull};
ghost use Rattle.teal_value.specs.declared.value.Value.TheVariants.{Uint, Bytes};
ghost use Rattle.teal_value.specs.Answer.{Leaves};
ghost use Rattle.avm_cpu.specs.Copies.{pushed, with_copies, with_copy, with_loaded};
ghost use Rattle.avm_cpu.specs.Machine.{machine_at, with_stack, most_values};
ghost use Rattle.avm_cpu.specs.Operands.{one_uint, one_bytes, one_value, two_uints, two_bytes, two_values, uint_and_bytes, bytes_and_uint, bytes_and_value, value_and_uint, bytes_and_two_uints, value_and_two_uints, two_values_and_uint, two_uints_and_bytes, uint_bytes_and_value, value_below};

use crate::constants::ByteConstants;
use crate::push::Push;
use crate::values::{
    below_last, put, put_uint, put_zeros, swap_last, take_out, write_bytes, zeros,
};
use arrayvec::ArrayVec;
use std::alloc::{AllocError, Global};
use std::marker::Model;
use teal_value::{ByteString, Fault, Value, write_over};

/// The most values that stand on the stack (AVM specification, "The Stack").
const MAX_VALUES: usize = 1000;

/// The places of the scratch space (AVM specification, "Scratch Space").
const PLACES: usize = 256;

/// The most bytes of a byte string (AVM specification, "The Stack").
pub const MAX_BYTES: usize = 4096;

/// The machine of one run.
///
/// A program's instruction reads its operands by `&self`, computes and tests, and then changes the machine: so a fault
/// leaves it as it was. The stack and the scratch space lie in boxes, and are written over in place: a machine is made once
/// for many runs, by [`Cpu::reset`], and holds the memory of byte strings until they are written over. The memory for
/// constants stays with it from run to run.
pub struct Cpu {
    /// The first of these are on the stack, so many as `depth` says, the top last; the others are of no account.
    stack: Box<ArrayVec<Value, MAX_VALUES>>,
    depth: usize,
    /// All values of the scratch space; those from `used` on are 0.
    scratch: Box<ArrayVec<Value, PLACES>>,
    used: usize,
    uint_constants: Vec<u64>,
    byte_constants: ByteConstants,
    place: u16,
}

/// Written out, so that whoever owns one drops it by one call and not part by part.
impl Drop for Cpu {
    #[inline]
    fn drop(self) {
        let Cpu {
            stack: _,
            depth: _,
            scratch: _,
            used: _,
            uint_constants: _,
            byte_constants: _,
            place: _,
        } = self;
    }
}

impl Model for Cpu {
    ghost use Rattle.std.specs.Prelude.{◌≡◌, ◌-◌, ◌≤◌, length, drop, replicate, reverse, take};
    ghost use Rattle.teal_value.specs.declared.value.Value.TheVariants.{Uint};
    ghost use Rattle.avm_cpu.specs.Machine.{Machine};

    ghost Value = { Machine };

    ghost view = { λ c. record { stack = reverse (take c.depth c.stack.value.items); scratch = c.scratch.value.items; uint_constants = c.uint_constants.items; byte_constants = c.byte_constants; place = c.place } };

    ghost invariant = { λ c. (length c.stack.value.items ≡ 1000) × (c.depth ≤ 1000) × (length c.scratch.value.items ≡ 256) × (c.used ≤ 256) × (drop c.used c.scratch.value.items ≡ replicate (256 - c.used) (Uint 0)) };
}

impl Cpu {
    /// The machine before a program's first instruction, which stands at the place. It is made out of line, as its parts are.
    #[inline(never)]
    pub fn new(alloc: Global, place: u16) -> Result<Cpu, AllocError>
        ensures { IfOk result (λ cpu. cpu ≡ machine_at place) }
    {
        let stack = zeros(alloc)?;
        let scratch = zeros(alloc)?;
        Ok(Cpu {
            stack,
            depth: 0,
            scratch,
            used: 0,
            uint_constants: Vec::new(alloc),
            byte_constants: ByteConstants::new(alloc),
            place,
        })
    }

    /// Becomes the machine before a program's first instruction, which stands at the place. It takes no memory, costs no
    /// more than the scratch space that was used, and keeps the memory for constants.
    pub fn reset(&mut self, place: u16)
        ensures { self.new ≡ machine_at place }
    {
        self.depth = 0;
        put_zeros(&mut self.scratch, self.used);
        self.used = 0;
        self.uint_constants.clear();
        self.byte_constants.clear();
        self.place = place;
    }

    /// The values on the stack, the top last.
    pub fn values(&self) -> &[Value]
        ensures { result.now ≡ reverse self.now.stack }
    {
        &self.stack.as_slice()[..self.depth]
    }

    /// How many values the stack holds.
    #[inline]
    pub fn depth(&self) -> usize
        ensures depth { result ≡ length self.now.stack }
        ensures fits { result ≤ most_values }
    {
        self.depth
    }

    #[inline]
    fn value_at(&self, depth: usize) -> Option<&Value>
        ensures { option_copied result ≡ slice_get self.now.stack depth }
    {
        below_last(self.stack.as_slice(), self.depth, depth)
    }

    /// The value on top.
    pub fn peek(&self) -> Result<&Value, Fault>
        ensures { MatchResult result
            (λ a. one_value self.now.stack ≡ Ok a.now) (λ f. one_value self.now.stack ≡ Err f) }
    {
        self.one_value()
    }

    /// The value so many below the top.
    #[inline]
    pub fn value_below(&self, depth: u8) -> Result<&Value, Fault>
        ensures { MatchResult result (λ a. value_below depth self.now.stack ≡ Ok a.now)
            (λ f. value_below depth self.now.stack ≡ Err f) }
    {
        self.value_at(usize::from(depth)).ok_or(Fault::Underflow)
    }

    /// The number on top.
    #[inline]
    pub fn one_uint(&self) -> Result<u64, Fault>
        ensures { result ≡ one_uint self.now.stack }
    {
        match self.value_at(0) {
            Some(Value::Uint(a)) => Ok(*a),
            Some(_) => Err(Fault::WrongType),
            None => Err(Fault::Underflow),
        }
    }

    /// The byte string on top.
    pub fn one_bytes(&self) -> Result<&[u8], Fault>
        ensures { MatchResult result
            (λ a. one_bytes self.now.stack ≡ Ok a.now) (λ f. one_bytes self.now.stack ≡ Err f) }
    {
        match self.value_at(0) {
            Some(Value::Bytes(a)) => Ok(a.as_slice()),
            Some(_) => Err(Fault::WrongType),
            None => Err(Fault::Underflow),
        }
    }

    /// The value on top.
    #[inline]
    pub fn one_value(&self) -> Result<&Value, Fault>
        ensures { MatchResult result
            (λ a. one_value self.now.stack ≡ Ok a.now) (λ f. one_value self.now.stack ≡ Err f) }
    {
        match self.value_at(0) {
            Some(a) => Ok(a),
            None => Err(Fault::Underflow),
        }
    }

    /// The two numbers on top, the deeper one first.
    #[inline]
    pub fn two_uints(&self) -> Result<(u64, u64), Fault>
        ensures { result ≡ two_uints self.now.stack }
    {
        match (self.value_at(1), self.value_at(0)) {
            (Some(Value::Uint(a)), Some(Value::Uint(b))) => Ok((*a, *b)),
            (Some(_), Some(_)) => Err(Fault::WrongType),
            _ => Err(Fault::Underflow),
        }
    }

    /// The two byte strings on top, the deeper one first.
    pub fn two_bytes(&self) -> Result<(&[u8], &[u8]), Fault>
        ensures { MatchResult result (λ p. two_bytes self.now.stack ≡ Ok (p.0.now, p.1.now))
            (λ f. two_bytes self.now.stack ≡ Err f) }
    {
        match (self.value_at(1), self.value_at(0)) {
            (Some(Value::Bytes(a)), Some(Value::Bytes(b))) => Ok((a.as_slice(), b.as_slice())),
            (Some(_), Some(_)) => Err(Fault::WrongType),
            _ => Err(Fault::Underflow),
        }
    }

    /// The two values on top, the deeper one first.
    #[inline]
    pub fn two_values(&self) -> Result<(&Value, &Value), Fault>
        ensures { MatchResult result (λ p. two_values self.now.stack ≡ Ok (p.0.now, p.1.now))
            (λ f. two_values self.now.stack ≡ Err f) }
    {
        match (self.value_at(1), self.value_at(0)) {
            (Some(a), Some(b)) => Ok((a, b)),
            _ => Err(Fault::Underflow),
        }
    }

    /// A number, and a byte string on top.
    pub fn uint_and_bytes(&self) -> Result<(u64, &[u8]), Fault>
        ensures { MatchResult result (λ p. uint_and_bytes self.now.stack ≡ Ok (p.0, p.1.now))
            (λ f. uint_and_bytes self.now.stack ≡ Err f) }
    {
        match (self.value_at(1), self.value_at(0)) {
            (Some(Value::Uint(a)), Some(Value::Bytes(b))) => Ok((*a, b.as_slice())),
            (Some(_), Some(_)) => Err(Fault::WrongType),
            _ => Err(Fault::Underflow),
        }
    }

    /// A byte string, and a number on top.
    pub fn bytes_and_uint(&self) -> Result<(&[u8], u64), Fault>
        ensures { MatchResult result (λ p. bytes_and_uint self.now.stack ≡ Ok (p.0.now, p.1))
            (λ f. bytes_and_uint self.now.stack ≡ Err f) }
    {
        match (self.value_at(1), self.value_at(0)) {
            (Some(Value::Bytes(a)), Some(Value::Uint(b))) => Ok((a.as_slice(), *b)),
            (Some(_), Some(_)) => Err(Fault::WrongType),
            _ => Err(Fault::Underflow),
        }
    }

    /// A byte string, and a value on top.
    pub fn bytes_and_value(&self) -> Result<(&[u8], &Value), Fault>
        ensures { MatchResult result (λ p. bytes_and_value self.now.stack ≡ Ok (p.0.now, p.1.now))
            (λ f. bytes_and_value self.now.stack ≡ Err f) }
    {
        match (self.value_at(1), self.value_at(0)) {
            (Some(Value::Bytes(a)), Some(b)) => Ok((a.as_slice(), b)),
            (Some(_), Some(_)) => Err(Fault::WrongType),
            _ => Err(Fault::Underflow),
        }
    }

    /// A value, and a number on top.
    pub fn value_and_uint(&self) -> Result<(&Value, u64), Fault>
        ensures { MatchResult result (λ p. value_and_uint self.now.stack ≡ Ok (p.0.now, p.1))
            (λ f. value_and_uint self.now.stack ≡ Err f) }
    {
        match (self.value_at(1), self.value_at(0)) {
            (Some(a), Some(Value::Uint(b))) => Ok((a, *b)),
            (Some(_), Some(_)) => Err(Fault::WrongType),
            _ => Err(Fault::Underflow),
        }
    }

    /// A byte string, and two numbers on top.
    pub fn bytes_and_two_uints(&self) -> Result<(&[u8], u64, u64), Fault>
        ensures { MatchResult result (λ p. bytes_and_two_uints self.now.stack
            ≡ Ok (p.0.now, p.1, p.2)) (λ f. bytes_and_two_uints self.now.stack ≡ Err f) }
    {
        match (self.value_at(2), self.value_at(1), self.value_at(0)) {
            (Some(Value::Bytes(a)), Some(Value::Uint(b)), Some(Value::Uint(c))) => Ok((
                a.as_slice(),
                *b,
                *c,
            )),
            (Some(_), Some(_), Some(_)) => Err(Fault::WrongType),
            _ => Err(Fault::Underflow),
        }
    }

    /// A value, and two numbers on top.
    pub fn value_and_two_uints(&self) -> Result<(&Value, u64, u64), Fault>
        ensures { MatchResult result (λ p. value_and_two_uints self.now.stack
            ≡ Ok (p.0.now, p.1, p.2)) (λ f. value_and_two_uints self.now.stack ≡ Err f) }
    {
        match (self.value_at(2), self.value_at(1), self.value_at(0)) {
            (Some(a), Some(Value::Uint(b)), Some(Value::Uint(c))) => Ok((a, *b, *c)),
            (Some(_), Some(_), Some(_)) => Err(Fault::WrongType),
            _ => Err(Fault::Underflow),
        }
    }

    /// Two values, and a number on top.
    pub fn two_values_and_uint(&self) -> Result<(&Value, &Value, u64), Fault>
        ensures { MatchResult result (λ p. two_values_and_uint self.now.stack
            ≡ Ok (p.0.now, p.1.now, p.2)) (λ f. two_values_and_uint self.now.stack ≡ Err f) }
    {
        match (self.value_at(2), self.value_at(1), self.value_at(0)) {
            (Some(a), Some(b), Some(Value::Uint(c))) => Ok((a, b, *c)),
            (Some(_), Some(_), Some(_)) => Err(Fault::WrongType),
            _ => Err(Fault::Underflow),
        }
    }

    /// Two numbers, and a byte string on top.
    pub fn two_uints_and_bytes(&self) -> Result<(u64, u64, &[u8]), Fault>
        ensures { MatchResult result (λ p. two_uints_and_bytes self.now.stack
            ≡ Ok (p.0, p.1, p.2.now)) (λ f. two_uints_and_bytes self.now.stack ≡ Err f) }
    {
        match (self.value_at(2), self.value_at(1), self.value_at(0)) {
            (Some(Value::Uint(a)), Some(Value::Uint(b)), Some(Value::Bytes(c))) => Ok((
                *a,
                *b,
                c.as_slice(),
            )),
            (Some(_), Some(_), Some(_)) => Err(Fault::WrongType),
            _ => Err(Fault::Underflow),
        }
    }

    /// A number, a byte string, and a value on top.
    pub fn uint_bytes_and_value(&self) -> Result<(u64, &[u8], &Value), Fault>
        ensures { MatchResult result (λ p. uint_bytes_and_value self.now.stack
            ≡ Ok (p.0, p.1.now, p.2.now)) (λ f. uint_bytes_and_value self.now.stack ≡ Err f) }
    {
        match (self.value_at(2), self.value_at(1), self.value_at(0)) {
            (Some(Value::Uint(a)), Some(Value::Bytes(b)), Some(c)) => Ok((*a, b.as_slice(), c)),
            (Some(_), Some(_), Some(_)) => Err(Fault::WrongType),
            _ => Err(Fault::Underflow),
        }
    }

    /// Removes the number on top.
    #[inline]
    pub fn pop_uint(&mut self) -> Result<u64, Fault>
        ensures { MatchResult result (λ n. (one_uint self.old.stack ≡ Ok n)
            × (self.new ≡ with_stack self.old (drop 1 self.old.stack)))
            (λ f. (one_uint self.old.stack ≡ Err f) × (self.new ≡ self.old)) }
    {
        let number = self.one_uint()?;
        self.drop_top(1);
        Ok(number)
    }

    /// Removes the byte string on top, without a copy.
    pub fn pop_bytes(&mut self) -> Result<ByteString, Fault>
        ensures { MatchResult result (λ b. (one_bytes self.old.stack ≡ Ok b)
            × (self.new ≡ with_stack self.old (drop 1 self.old.stack)))
            (λ f. (one_bytes self.old.stack ≡ Err f) × (self.new ≡ self.old)) }
    {
        let _bytes = self.one_bytes()?;
        match self.take_top() {
            Value::Bytes(bytes) => Ok(bytes),
            Value::Uint(_) => Err(Fault::WrongType),
        }
    }

    fn take_top(&mut self) -> Value
        requires { 0 < length self.old.stack }
        ensures stack { self.old.stack ≡ result ∷ drop 1 self.old.stack }
        ensures rest { self.new ≡ with_stack self.old (drop 1 self.old.stack) }
    {
        self.depth -= 1;
        take_out(&mut self.stack, self.depth)
    }

    /// Drops the values on top, so many.
    #[inline]
    pub fn drop_top(&mut self, count: usize)
        requires { count ≤ length self.old.stack }
        ensures { self.new ≡ with_stack self.old (drop count self.old.stack) }
    {
        self.depth -= count;
    }

    /// Puts a value in the place of those on top, so many, where that leaves no more than the stack has room for.
    fn put_over(&mut self, count: usize, value: Value)
        requires there { count ≤ length self.old.stack }
        requires room { length self.old.stack < most_values + count }
        ensures { self.new ≡ with_stack self.old (value ∷ drop count self.old.stack) }
    {
        let place = self.depth - count;
        put(&mut self.stack, place, value);
        self.depth = place + 1;
    }

    /// Puts a number in the place of those on top, as [`Cpu::put_over`] does.
    #[inline]
    fn put_uint_over(&mut self, count: usize, number: u64)
        requires there { count ≤ length self.old.stack }
        requires room { length self.old.stack < most_values + count }
        ensures { self.new ≡ with_stack self.old (Uint number ∷ drop count self.old.stack) }
    {
        let place = self.depth - count;
        put_uint(&mut self.stack, place, number);
        self.depth = place + 1;
    }

    /// Puts a number on top. The write comes last, so that the rare one over a byte string leaves nothing to be done behind it.
    #[inline]
    fn put_uint_on_top(&mut self, number: u64)
        requires { length self.old.stack < most_values }
        ensures { self.new ≡ with_stack self.old (Uint number ∷ self.old.stack) }
    {
        let place = self.depth;
        self.depth = place + 1;
        put_uint(&mut self.stack, place, number);
    }

    /// Puts a value on top, where there is room.
    pub fn push(&mut self, value: Value) -> Result<(), Fault>
        ensures { MatchResult result (λ _. (length self.old.stack < most_values)
            × (self.new ≡ with_stack self.old (value ∷ self.old.stack))) (λ f.
            (most_values ≤ length self.old.stack) × (f ≡ StackFull) × (self.new ≡ self.old)) }
    {
        if self.depth() == MAX_VALUES {
            return Err(Fault::StackFull);
        }
        self.put_over(0, value);
        Ok(())
    }

    /// Puts a number on top, where there is room.
    #[inline]
    pub fn push_uint(&mut self, number: u64) -> Result<(), Fault>
        ensures { MatchResult result (λ _. (length self.old.stack < most_values)
            × (self.new ≡ with_stack self.old (Uint number ∷ self.old.stack))) (λ f.
            (most_values ≤ length self.old.stack) × (f ≡ StackFull) × (self.new ≡ self.old)) }
    {
        if self.depth() == MAX_VALUES {
            return Err(Fault::StackFull);
        }
        self.put_uint_on_top(number);
        Ok(())
    }

    /// Puts two values on top, where there is room for both; the second becomes the top.
    pub fn push_pair(&mut self, below: Value, top: Value) -> Result<(), Fault>
        ensures { MatchResult result (λ _. (length self.old.stack + 2 ≤ most_values)
            × (self.new ≡ with_stack self.old (top ∷ below ∷ self.old.stack))) (λ f.
            (most_values < length self.old.stack + 2) × (f ≡ StackFull) × (self.new ≡ self.old)) }
    {
        if self.depth() + 2 > MAX_VALUES {
            return Err(Fault::StackFull);
        }
        self.put_over(0, below);
        self.put_over(0, top);
        Ok(())
    }

    /// Puts two numbers on top, where there is room for both; the second becomes the top. It is out of line, so that who
    /// calls it has nothing to keep between the two.
    #[inline(never)]
    pub fn push_uints(&mut self, below: u64, top: u64) -> Result<(), Fault>
        ensures { MatchResult result (λ _. (length self.old.stack + 2 ≤ most_values)
            × (self.new ≡ with_stack self.old (Uint top ∷ Uint below ∷ self.old.stack))) (λ f.
            (most_values < length self.old.stack + 2) × (f ≡ StackFull) × (self.new ≡ self.old)) }
    {
        if self.depth() + 2 > MAX_VALUES {
            return Err(Fault::StackFull);
        }
        self.put_uint_on_top(below);
        self.put_uint_on_top(top);
        Ok(())
    }

    /// Puts a copy of the value so many below the top on top, where there is room. Out of line: numbers, which most values
    /// are, are better pushed by [`Cpu::push_uint`].
    #[cold]
    #[inline(never)]
    pub fn push_copy(&mut self, depth: u8) -> Push
        ensures copied { Leaves (pushed result) self.new (with_copy depth self.old) }
        ensures unchanged { IfErr (pushed result) (λ _. self.new ≡ self.old) }
    {
        match self.value_below(depth) {
            Ok(value) => match value.clone() {
                Ok(copy) => Push::of(self.push(copy)),
                Err(AllocError) => Push::Memory,
            },
            Err(fault) => Push::Fault(fault),
        }
    }

    /// Puts copies of the two values on top on top of them, in their order, where there is room for both. Out of line, as
    /// [`Cpu::push_copy`] is.
    #[cold]
    #[inline(never)]
    pub fn push_copies(&mut self) -> Push
        ensures copied { Leaves (pushed result) self.new (with_copies self.old) }
        ensures unchanged { IfErr (pushed result) (λ _. self.new ≡ self.old) }
    {
        match self.two_values() {
            Ok((below, top)) => match (below.clone(), top.clone()) {
                (Ok(below), Ok(top)) => Push::of(self.push_pair(below, top)),
                _ => Push::Memory,
            },
            Err(fault) => Push::Fault(fault),
        }
    }

    /// Puts a value in the place of those on top, so many, of which there is at least one.
    pub fn replace(&mut self, count: usize, value: Value)
        requires some { 0 < count }
        requires there { count ≤ length self.old.stack }
        ensures { self.new ≡ with_stack self.old (value ∷ drop count self.old.stack) }
    {
        let _depth = self.depth();
        self.put_over(count, value);
    }

    /// Puts a number in the place of those on top, so many, of which there is at least one.
    #[inline]
    pub fn set_uint(&mut self, count: usize, number: u64)
        requires some { 0 < count }
        requires there { count ≤ length self.old.stack }
        ensures { self.new ≡ with_stack self.old (Uint number ∷ drop count self.old.stack) }
    {
        let _depth = self.depth();
        self.put_uint_over(count, number);
    }

    /// Puts a copy of bytes in the place of the value on top: in the memory of that, if it is a byte string that has enough.
    /// Where memory is refused that value stays.
    pub fn set_bytes(&mut self, alloc: Global, bytes: &[u8]) -> Result<(), AllocError>
        requires { 0 < length self.old.stack }
        ensures set { IfOk result
            (λ _. self.new ≡ with_stack self.old (Bytes bytes.now ∷ drop 1 self.old.stack)) }
        ensures unchanged { IfErr result (λ _. self.new ≡ self.old) }
    {
        let _depth = self.depth();
        let place = self.depth - 1;
        write_bytes(&mut self.stack, place, alloc, bytes)?;
        Ok(())
    }

    /// Puts two values in the place of those on top, so many, of which there are at least two; the second becomes the
    /// top.
    pub fn replace_pair(&mut self, count: usize, below: Value, top: Value)
        requires some { 2 ≤ count }
        requires there { count ≤ length self.old.stack }
        ensures { self.new ≡ with_stack self.old (top ∷ below ∷ drop count self.old.stack) }
    {
        let _depth = self.depth();
        self.put_over(count, below);
        self.put_over(0, top);
    }

    /// Puts two numbers in the place of the values on top, so many, of which there are at least two; the second becomes
    /// the top.
    #[inline]
    pub fn set_uints(&mut self, count: usize, below: u64, top: u64)
        requires some { 2 ≤ count }
        requires there { count ≤ length self.old.stack }
        ensures { self.new
            ≡ with_stack self.old (Uint top ∷ Uint below ∷ drop count self.old.stack) }
    {
        let _depth = self.depth();
        self.put_uint_over(count, below);
        self.put_uint_on_top(top);
    }

    /// Drops the value below the top.
    #[inline(never)]
    pub fn drop_second(&mut self)
        requires { 2 ≤ length self.old.stack }
        ensures { IfOk (one_value self.old.stack)
            (λ a. self.new ≡ with_stack self.old (a ∷ drop 2 self.old.stack)) }
    {
        let top = self.take_top();
        self.replace(1, top);
    }

    /// Exchanges the two values on top.
    #[inline]
    pub fn swap(&mut self)
        requires { 2 ≤ length self.old.stack }
        ensures { IfOk (two_values self.old.stack)
            (λ p. self.new ≡ with_stack self.old (p.0 ∷ p.1 ∷ drop 2 self.old.stack)) }
    {
        match self.two_uints() {
            Ok((below, top)) => self.set_uints(2, top, below),
            Err(_) => self.swap_values(),
        }
    }

    #[cold]
    #[inline(never)]
    fn swap_values(&mut self)
        requires { 2 ≤ length self.old.stack }
        ensures { IfOk (two_values self.old.stack)
            (λ p. self.new ≡ with_stack self.old (p.0 ∷ p.1 ∷ drop 2 self.old.stack)) }
    {
        swap_last(&mut self.stack, self.depth);
    }

    /// Leaves one value alone on the stack.
    pub fn set_only(&mut self, value: Value)
        ensures { self.new ≡ with_stack self.old (value ∷ []) }
    {
        put(&mut self.stack, 0, value);
        self.depth = 1;
    }

    /// The value at an index of the scratch space.
    #[inline]
    pub fn scratch(&self, index: u8) -> &Value
        ensures { slice_get self.now.scratch index ≡ Some result.now }
    {
        &self.scratch.as_slice()[usize::from(index)]
    }

    /// Puts a copy of the value at an index of the scratch space on top, where there is room. Out of line, as
    /// [`Cpu::push_copy`] is.
    #[cold]
    #[inline(never)]
    pub fn load(&mut self, index: u8) -> Push
        ensures copied { Leaves (pushed result) self.new (with_loaded index self.old) }
        ensures unchanged { IfErr (pushed result) (λ _. self.new ≡ self.old) }
    {
        match self.scratch(index).clone() {
            Ok(copy) => Push::of(self.push(copy)),
            Err(AllocError) => Push::Memory,
        }
    }

    /// Moves the value on top to an index of the scratch space.
    #[inline]
    pub fn store(&mut self, index: u8)
        requires { 0 < length self.old.stack }
        ensures { IfOk (one_value self.old.stack) (λ v. self.new ≡ record self.old
            { stack = drop 1 self.old.stack; scratch = slice_set self.old.scratch index v }) }
    {
        match self.one_uint() {
            Ok(number) => {
                self.drop_top(1);
                self.write_uint(index, number);
            }
            Err(_) => self.store_bytes(index),
        }
    }

    #[cold]
    #[inline(never)]
    fn store_bytes(&mut self, index: u8)
        requires { 0 < length self.old.stack }
        ensures { IfOk (one_value self.old.stack) (λ v. self.new ≡ record self.old
            { stack = drop 1 self.old.stack; scratch = slice_set self.old.scratch index v }) }
    {
        let value = self.take_top();
        self.write(index, value);
    }

    /// Writes a value to an index of the scratch space.
    fn write(&mut self, index: u8, value: Value)
        ensures { self.new ≡ record self.old { scratch = slice_set self.old.scratch index value } }
    {
        let place = usize::from(index);
        put(&mut self.scratch, place, value);
        self.used = self.used.max(place + 1);
    }

    /// Writes a number to an index of the scratch space.
    #[inline]
    fn write_uint(&mut self, index: u8, number: u64)
        ensures { self.new
            ≡ record self.old { scratch = slice_set self.old.scratch index (Uint number) } }
    {
        let place = usize::from(index);
        if self.used <= place {
            self.used = place + 1;
        }
        put_uint(&mut self.scratch, place, number);
    }

    /// The uint constants in force.
    pub fn uint_constants(&self) -> &[u64]
        ensures { result.now ≡ self.now.uint_constants }
    {
        self.uint_constants.as_slice()
    }

    /// The uint constant of that number in force, if there is one.
    #[inline]
    pub fn uint_constant(&self, index: u8) -> Option<u64>
        ensures { result ≡ slice_get self.now.uint_constants index }
    {
        self.uint_constants
            .as_slice()
            .get(usize::from(index))
            .copied()
    }

    /// Puts other uint constants in force, and takes memory only where the machine has not held as many before. At want of
    /// memory those of before stay.
    pub fn set_uint_constants(&mut self, numbers: &[u64]) -> Result<(), AllocError>
        ensures { MatchResult result (λ _. self.new
            ≡ record self.old { uint_constants = numbers.now }) (λ _. self.new ≡ self.old) }
    {
        write_over(&mut self.uint_constants, numbers)
    }

    /// The byte constants in force.
    pub fn byte_constants(&self) -> &[ByteString]
        ensures { result.now ≡ self.now.byte_constants }
    {
        self.byte_constants.as_slice()
    }

    /// The byte constant of that number in force, if there is one.
    pub fn byte_constant(&self, index: u8) -> Option<&[u8]>
        ensures { MatchOption result (slice_get self.now.byte_constants index ≡ None) (λ b.
            slice_get self.now.byte_constants index ≡ Some b.now) }
    {
        match self.byte_constants.as_slice().get(usize::from(index)) {
            Some(bytes) => Some(bytes.as_slice()),
            None => None,
        }
    }

    /// Puts other byte constants in force, and takes memory only where what the machine held before has no room for them.
    /// Where an allocation is refused those of before stay.
    #[inline(always)]
    pub fn set_byte_constants(
        &mut self,
        alloc: Global,
        strings: &[ByteString],
    ) -> Result<(), AllocError>
        ensures { MatchResult result (λ _. self.new
            ≡ record self.old { byte_constants = strings.now }) (λ _. self.new ≡ self.old) }
    {
        self.byte_constants.set(alloc, strings)
    }

    /// The place of the instruction that runs.
    #[inline]
    pub fn place(&self) -> u16
        ensures { result ≡ self.now.place }
    {
        self.place
    }

    /// Goes on to another place.
    #[inline]
    pub fn set_place(&mut self, place: u16)
        ensures { self.new ≡ record self.old { place = place } }
    {
        self.place = place;
    }
}
