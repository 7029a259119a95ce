//! Numbers that are put and drawn.

ghost use Rattle.std.specs.Prelude.{◌≡◌, true, []};
ghost use Rattle.avm_pool.specs.NumberPasses.{IsWith, view};
ghost use Rattle.avm_pool.specs.NumberRule.{hand};

use avm_pool::{NumberPass, Numbers};
use std::sync::Wait;
use std::test::Fail;
use std::thread::join;

/// Puts 1, 2 and 3; whether all of them were taken.
fn put_three<R: Wait>(rt: &R, numbers: &Numbers, pass: &mut NumberPass) -> bool
    requires { IsWith numbers.now pass.old × (view pass.old ≡ hand true 0 []) }
    ensures { IsWith numbers.now pass.new }
{
    numbers.put(rt, pass, 1).is_ok()
        && numbers.put(rt, pass, 2).is_ok()
        && numbers.put(rt, pass, 3).is_ok()
}

#[test]
fn numbers_are_drawn_in_the_order_in_which_they_were_put(rt: HostRuntime) -> Result<(), Fail> {
    let (numbers, mut pass) = Numbers::new(rt.alloc())?;
    let mut worker = numbers.worker(&mut pass);
    assert!(rt; numbers.draw(&rt, &mut worker).is_none());
    assert!(rt; put_three(&rt, &numbers, &mut pass));
    assert!(rt; numbers.draw(&rt, &mut worker) == Some(1));
    assert!(rt; numbers.draw(&rt, &mut pass) == Some(2));
    assert!(rt; numbers.draw(&rt, &mut worker) == Some(3));
    assert!(rt; numbers.draw(&rt, &mut worker).is_none());
    Ok(())
}

/// Draws two numbers, and adds up their squares.
fn draw_two<R: Wait>(rt: &R, numbers: &Numbers, mut pass: NumberPass) -> u64
    requires { IsWith numbers.now pass }
{
    let first = u64::from(numbers.draw(rt, &mut pass).unwrap_or(0));
    let second = u64::from(numbers.draw(rt, &mut pass).unwrap_or(0));
    first
        .wrapping_mul(first)
        .wrapping_add(second.wrapping_mul(second))
}

#[test]
fn two_threads_draw_each_number_once(rt: HostRuntime) -> Result<(), Fail> {
    let (numbers, mut pass) = Numbers::new(rt.alloc())?;
    assert!(rt; put_three(&rt, &numbers, &mut pass));
    let left = numbers.worker(&mut pass);
    let right = numbers.worker(&mut pass);
    let (one, other) = join(
        &rt,
        || draw_two(&rt, &numbers, left),
        || draw_two(&rt, &numbers, right),
    );
    // Three draws find 1, 2 and 3, and one finds none: no other four numbers up to 3 have squares of this sum.
    assert!(rt; one.checked_add(other) == Some(14));
    Ok(())
}
