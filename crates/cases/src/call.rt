// The calls, by their numbers in a stream of cases.
use std::fmt;

#[derive(Clone, Copy)]
pub enum Call {
    FlatSizes,
    FirstRow,
    FireImages,
    Unfold,
    Images,
    RowOrder,
    FireOrders,
    FirstOrder,
    NetSizes,
}

// Of a number that no call has, that number.
impl TryFrom<u8> for Call {
    type Error = u8;

    fn try_from(number: u8) -> Result<Call, u8> {
        match number {
            1 => Ok(Call::FlatSizes),
            2 => Ok(Call::FirstRow),
            3 => Ok(Call::FireImages),
            4 => Ok(Call::Unfold),
            5 => Ok(Call::Images),
            6 => Ok(Call::RowOrder),
            7 => Ok(Call::FireOrders),
            8 => Ok(Call::FirstOrder),
            9 => Ok(Call::NetSizes),
            _ => Err(number),
        }
    }
}

// Its name with the line's end, as the line in front of a case ends: one piece, so one write.
impl fmt::Display for Call {
    fn fmt<W: fmt::Write>(&self, f: &mut fmt::Formatter<W>) -> fmt::Result {
        match self {
            Call::FlatSizes => write!(f, "flat_sizes\n"),
            Call::FirstRow => write!(f, "first_row\n"),
            Call::FireImages => write!(f, "fire_images\n"),
            Call::Unfold => write!(f, "unfold\n"),
            Call::Images => write!(f, "images\n"),
            Call::RowOrder => write!(f, "row_order\n"),
            Call::FireOrders => write!(f, "fire_orders\n"),
            Call::FirstOrder => write!(f, "first_order\n"),
            Call::NetSizes => write!(f, "net_sizes\n"),
        }
    }
}
