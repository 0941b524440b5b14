// The lines of the readings of a seat, one for each scale: the price, and what the form itself costs.
use super::forms::Price;
use super::sheet_lines::push_fault;
use super::views::View;
use reader::read::read;
use readings::scale::{Plain, Points, Scale, Worst};
use std::alloc::{AllocError, Global};

// The number told of a price, and of what a form costs on the scale.
fn push_reading<C: Scale, T: FnOnce(C::Price) -> u32, P: FnOnce(Price) -> u32>(
    heap: Global,
    out: &mut String,
    view: View<'_>,
    prices: &mut [C::Price],
    title: &str,
    told: T,
    part: P,
) -> Result<(), AllocError>
    requires told { T.IsAlwaysCallable told }
    requires part { P.IsAlwaysCallable part }
{
    let mut list = [0u8; 10240];
    let mut numbers = [0u32; 8192];
    match read::<C>(
        view.sheet,
        view.hall,
        view.seat,
        &mut list,
        prices,
        &mut numbers,
    ) {
        Err(fault) => push_fault(out, fault),
        Ok(reading) => {
            write!(out, "{title} {} form ", told(reading.price))?;
            match view.form_price(heap, &list, reading.length) {
                Some(cost) => writeln!(out, "{}", part(cost)),
                None => writeln!(out, "wrong"),
            }
        }
    }
}

// The plain scale's one price counts as 0.
pub(crate) fn push_readings(
    heap: Global,
    out: &mut String,
    view: View<'_>,
) -> Result<(), AllocError> {
    push_reading::<Points, _, _>(
        heap,
        out,
        view,
        &mut [Points::unit(); 8192],
        "points",
        |price| price,
        |cost| cost.points,
    )?;
    push_reading::<Worst, _, _>(
        heap,
        out,
        view,
        &mut [Worst::unit(); 8192],
        "worst",
        u32::from,
        |cost| u32::from(cost.worst),
    )?;
    push_reading::<Plain, _, _>(
        heap,
        out,
        view,
        &mut [Plain::unit(); 8192],
        "plain",
        |_| 0,
        |_| 0,
    )
}
