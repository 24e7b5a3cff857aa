//! Pauses at random, so that the steps of two threads come in many orders.

use std::thread;

/// Pauses now and then, by the number of a xorshift generator, of which it gives the next one. Where it is 0 nothing pauses.
pub fn pause(number: u64) -> u64 {
    let mut number = number;
    number ^= number << 13;
    number ^= number >> 7;
    number ^= number << 17;
    if number % 32 == 1 {
        for _ in 0..number >> 58 {
            thread::yield_now();
        }
    }
    number
}
