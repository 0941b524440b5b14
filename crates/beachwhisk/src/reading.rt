// Reads a seat, on points or on worst: two exports, since each is a name and a list of parameters for C.
ghost use Rattle.std.specs.Prelude.{◌≡◌, ℕ, Result};
ghost use Rattle.faults.specs.Faults.{Told, telling};
ghost use Rattle.readings.specs.declared.read.Reading.{Reading};
ghost use Rattle.readings.specs.Scales.{points, worst};
ghost use Rattle.beachwhisk.specs.Told.{reading_of};
ghost use Rattle.beachwhisk.specs.Calls.{ReadOn};

use crate::answer::ReadAnswer;
use faults::Fault;
use reader::read::read;
use readings::read::Reading;
use readings::scale::{Points, Scale, Worst};
use sheets::load::sheet_of;

// Reads on a scale.
fn read_on<C: Scale>(
    text: &[u8],
    hall: &[u64],
    seat: usize,
    list: &mut [u8],
    prices: &mut [C::Price],
    numbers: &mut [u32],
) -> Result<Reading<C::Price>, Fault>
    ensures { ReadOn C.Scale.measure text.now seat hall.now (record { list = list.old; prices = prices.old; numbers = numbers.old }) (telling result) (record { list = list.new; prices = prices.new; numbers = numbers.new }) }
{
    let sheet = sheet_of(text)?;
    read::<C>(&sheet, hall, seat, list, prices, numbers)
}

// The price is the sum of the weights, which stops at the largest number.
#[unsafe(no_mangle)]
pub extern "C" fn beachwhisk_read_points(
    text: &[u8],
    hall: &[u64],
    seat: usize,
    list: &mut [u8],
    prices: &mut [u32],
    numbers: &mut [u32],
) -> ReadAnswer
    ensures { (a : Result (Reading ℕ) Told) × (result ≡ reading_of a) × ReadOn points text.now seat hall.now (record { list = list.old; prices = prices.old; numbers = numbers.old }) a (record { list = list.new; prices = prices.new; numbers = numbers.new }) }
{
    read_on::<Points>(text, hall, seat, list, prices, numbers).into()
}

// The price is the greatest weight.
#[unsafe(no_mangle)]
pub extern "C" fn beachwhisk_read_worst(
    text: &[u8],
    hall: &[u64],
    seat: usize,
    list: &mut [u8],
    prices: &mut [u16],
    numbers: &mut [u32],
) -> ReadAnswer
    ensures { (a : Result (Reading ℕ) Told) × (result ≡ reading_of a) × ReadOn worst text.now seat hall.now (record { list = list.old; prices = prices.old; numbers = numbers.old }) a (record { list = list.new; prices = prices.new; numbers = numbers.new }) }
{
    read_on::<Worst>(text, hall, seat, list, prices, numbers).into()
}
