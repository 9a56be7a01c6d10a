// What the figures of a portfolio are made of. The definitions are in specs/.
#![tactic(auto)]

// Of q units at a price P a piece makes P × (weight × q + allowance) / 10,000.
#[derive(Clone, Copy, Debug, PartialEq, Eq)]
pub struct Piece {
    pub weight: u32,
    pub allowance: u64,
}

// A currency, with its exchange rate in ten-thousandths of a rouble a unit.
#[derive(Clone, Copy, Debug, Default, PartialEq, Eq)]
pub struct Currency {
    pub code: u16,
    pub fx: u32,
}

// Off the liquid list, on it, or on it and open to short sale. The first two are closed to short sale.
#[derive(Clone, Copy, Debug, PartialEq, Eq)]
pub enum Kind {
    OffList,
    Listed,
    Shortable,
}

#[derive(Clone, Copy, Debug, PartialEq, Eq)]
pub struct Instrument {
    pub code: u16,
    pub currency: u16,
    pub kind: Kind,
    pub price: u32,
}

#[derive(Clone, Copy, Debug, PartialEq, Eq)]
pub enum Side {
    Buy,
    Sell,
}

// A standing order, open for the quantity that is left of it.
#[derive(Clone, Copy, Debug, PartialEq, Eq)]
pub struct Order {
    pub number: u32,
    pub portfolio: u16,
    pub side: Side,
    pub code: u16,
    pub left: u32,
    pub price: u32,
}

// The value S, the initial and the minimum margin, the first and the second ratio, and the worst case.
#[derive(Clone, Copy, Debug, PartialEq, Eq)]
pub struct Figures {
    pub value: i128,
    pub initial: i128,
    pub minimum: i128,
    pub first: i128,
    pub second: i128,
    pub worst: i128,
}

mod cash;
mod currencies;
pub mod facts;
mod instruments;
mod orders;
mod ratios;
mod roubles;

pub use cash::cash_figures;
pub use ratios::figures_from;
pub use roubles::{ROUBLE, in_roubles, rounded_down, wide_in_roubles};
