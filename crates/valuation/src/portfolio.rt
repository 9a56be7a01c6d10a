// What a portfolio holds.
use crate::lines::Lines;
use crate::orders::Orders;

#[derive(Clone, Copy)]
pub struct Portfolio<'l, 'o, 'c> {
    pub lines: Lines<'l>,
    pub orders: Orders<'o>,
    // A fixed array by the place of the currency: a portfolio wants no memory of its own.
    pub cash: &'c [i64; 8],
}
