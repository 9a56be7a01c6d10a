// Standing orders as C passes them.
ghost use Rattle.std.specs.Prelude.{◌≡◌};
ghost use Rattle.measuring.specs.Requests.{order_of, four_of};

use margin::{Order, Side};

#[derive(Clone, Copy)]
#[repr(C)]
pub struct Request {
    pub left: u32,
    pub price: u32,
    pub code: u16,
    pub sells: bool,
}

impl From<Request> for Order {
    fn from(request: Request) -> Order
        ensures { result ≡ order_of request }
    {
        Order {
            number: 0,
            portfolio: 0,
            side: if request.sells { Side::Sell } else { Side::Buy },
            code: request.code,
            left: request.left,
            price: request.price,
        }
    }
}

// Four orders. One with nothing left counts for nothing, so fewer may be had so.
pub(crate) fn four(requests: &[Request]) -> Option<[Order; 4]>
    ensures { result ≡ four_of requests.now }
{
    match *requests {
        [a, b, c, d] => Some([
            Order::from(a),
            Order::from(b),
            Order::from(c),
            Order::from(d),
        ]),
        _ => None,
    }
}
