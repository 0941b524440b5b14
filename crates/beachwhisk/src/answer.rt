// What a call answers, in numbers.
ghost use Rattle.std.specs.Prelude.{◌≡◌, Err};
ghost use Rattle.faults.specs.Faults.{told, telling};
ghost use Rattle.beachwhisk.specs.Told.{answer_of, Tells};

use faults::Fault;
use readings::read::Reading;

// Code 0 and the value, or the refusal's number with its place and its layer; what is not told is 0.
// Numbers and no Result, since C reads them.
#[derive(Clone, Copy, PartialEq, Eq, Debug)]
#[repr(C)]
pub struct Answer {
    pub code: u64,
    pub place: u64,
    pub layer: u64,
    pub value: u64,
}

impl From<Fault> for Answer {
    ghost from_gives = { λ fault answer. answer ≡ answer_of (Err (told fault)) };

    fn from(fault: Fault) -> Answer {
        Answer {
            code: fault.refusal.number() as u64,
            place: fault.place as u64,
            layer: fault.layer.number() as u64,
            value: 0,
        }
    }
}

impl From<Result<u64, Fault>> for Answer {
    ghost from_gives = { λ answered answer. answer ≡ answer_of (telling answered) };

    fn from(answered: Result<u64, Fault>) -> Answer {
        match answered {
            Ok(value) => Answer {
                code: 0,
                place: 0,
                layer: 0,
                value,
            },
            Err(fault) => fault.into(),
        }
    }
}

impl From<Result<usize, Fault>> for Answer {
    ghost from_gives = { λ counted answer. answer ≡ answer_of (telling counted) };

    fn from(counted: Result<usize, Fault>) -> Answer {
        counted.map(|count| count as u64).into()
    }
}

// The same of a reading: the form's length and its price.
#[derive(Clone, Copy, PartialEq, Eq, Debug)]
#[repr(C)]
pub struct ReadAnswer {
    pub code: u64,
    pub place: u64,
    pub layer: u64,
    pub length: u64,
    pub price: u64,
}

impl<P: Into<u32>> From<Result<Reading<P>, Fault>> for ReadAnswer {
    ghost from_gives = { λ read answer. Tells P.converts read answer };

    fn from(read: Result<Reading<P>, Fault>) -> ReadAnswer {
        match read {
            Ok(Reading { length, price }) => {
                let price: u32 = price.into();
                ReadAnswer {
                    code: 0,
                    place: 0,
                    layer: 0,
                    length: length as u64,
                    price: u64::from(price),
                }
            }
            Err(fault) => {
                let Answer {
                    code,
                    place,
                    layer,
                    ..
                } = fault.into();
                ReadAnswer {
                    code,
                    place,
                    layer,
                    length: 0,
                    price: 0,
                }
            }
        }
    }
}
