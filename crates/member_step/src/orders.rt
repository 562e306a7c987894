// The reader of an order's bytes.
// An order is made of its byte and of how many follow, so it is no conversion of a byte.
ghost use Rattle.std.specs.Prelude.{◌≡◌};
ghost use Rattle.member.specs.Orders.{read_order, heard_number, order_number};

use member::Order;
use refusals::Reason;

#[tactic(auto, using(choice::specs::laws::ChoiceLaws::tests), unfolding(member::specs::Orders::read_order, member::specs::Orders::order_of, member::specs::Orders::read_row, member::specs::Orders::refused_with))]
fn hear(bytes: &[u8]) -> Result<Order, Reason>
    ensures { result ≡ read_order bytes.now }
{
    match bytes.first() {
        Some(1) => Ok(Order::Start),
        Some(2) if bytes.len() < 21 => Err(Reason::OperandsCut),
        Some(2) => Ok(Order::Deliver),
        Some(3) => Ok(Order::Timeout),
        Some(4) => Ok(Order::Crash),
        Some(5) => Ok(Order::Recover),
        _ => Err(Reason::NoCommand),
    }
}

// Any bytes: the answer itself, and which number it stands for.
pub fn read_order(bytes: &[u8]) -> Result<Order, Reason>
    ensures heard { result ≡ read_order bytes.now }
    ensures number { heard_number result ≡ order_number bytes.now }
{
    hear(bytes)
}
