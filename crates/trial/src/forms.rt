// What a form costs, found by following it along the rules: a check beside the library's own price.
use grammar::sheet::Sheet;
use grammar::{Rule, Symbol};
use std::alloc::{AllocError, Global};
use std::ops::Add;

// A price on both scales.
#[derive(Clone, Copy)]
pub(crate) struct Price {
    pub points: u32,
    pub worst: u16,
}

impl Price {
    fn of(weight: u16) -> Price {
        Price {
            points: u32::from(weight),
            worst: weight,
        }
    }

    // The cheaper on each scale; no order of prices, since one may be cheaper on one scale alone.
    fn lower(self, other: Price) -> Price {
        Price {
            points: self.points.min(other.points),
            worst: self.worst.min(other.worst),
        }
    }
}

// What two parts cost together.
impl Add for Price {
    type Output = Price;

    fn add(self, more: Price) -> Price {
        Price {
            points: self.points.saturating_add(more.points),
            worst: self.worst.max(more.worst),
        }
    }
}

// The first symbols of a rule.
fn right(rule: &Rule) -> &[Symbol] {
    rule.symbols.get(..rule.len as usize).unwrap_or(&[])
}

// The price of yielding nothing by the rule, where the prices of its names are known.
fn price_of_nothing(rule: &Rule, empties: &[Option<Price>]) -> Option<Price> {
    right(rule)
        .iter()
        .try_fold(Price::of(rule.weight), |price, symbol| match *symbol {
            Symbol::Name(name) => Some(price + empties.get(name as usize).copied().flatten()?),
            Symbol::Word(_) => None,
        })
}

fn lower_all(sheet: &Sheet, empties: &mut [Option<Price>]) {
    for rule in sheet.rules() {
        let found = price_of_nothing(rule, empties);
        if let (Some(found), Some(known)) = (found, empties.get_mut(rule.left as usize)) {
            *known = Some(known.map_or(found, |price| price.lower(found)));
        }
    }
}

// For each name the cheapest price of yielding nothing; a cheapest tree has no name below itself.
pub(crate) fn prices_of_nothing(
    heap: Global,
    sheet: &Sheet,
) -> Result<Vec<Option<Price>>, AllocError> {
    let mut empties = vec![in heap; None; 32]?;
    for _ in 0..32 {
        lower_all(sheet, empties.as_mut_slice());
    }
    Ok(empties)
}

// Takes words off the stack as long as they are the words that stand next; none where they are not.
fn past_words<'a>(stack: &mut Vec<Symbol>, standing: &'a [u64]) -> Option<&'a [u64]> {
    let mut rest = standing;
    while let Some(Symbol::Word(word)) = stack.last().copied() {
        let (next, more) = rest.split_first()?;
        if *next != u64::from(word) {
            return None;
        }
        let _ = stack.pop();
        rest = more;
    }
    Some(rest)
}

// The price of what the form's number says of the name on top of the stack; its symbols take the name's place.
fn take_number(
    sheet: &Sheet,
    empties: &[Option<Price>],
    stack: &mut Vec<Symbol>,
    number: u8,
) -> Result<Option<Price>, AllocError> {
    let Some(Symbol::Name(name)) = stack.pop() else {
        return Ok(None);
    };
    if number == 0 {
        return Ok(empties.get(name as usize).copied().flatten());
    }
    match sheet.rules().get(number as usize - 1) {
        Some(rule) if rule.left == name => {
            stack.extend(right(rule).iter().rev())?;
            Ok(Some(Price::of(rule.weight)))
        }
        _ => Ok(None),
    }
}

// The price of a form of a derivation of the words, its trees of nothing at their cheapest; none of anything else.
pub(crate) fn price_of_form(
    heap: Global,
    sheet: &Sheet,
    standing: &[u64],
    form: &[u8],
) -> Result<Option<Price>, AllocError> {
    let empties = prices_of_nothing(heap, sheet)?;
    let mut stack = vec![in heap; Symbol::Name(sheet.start())]?;
    let mut rest = standing;
    let mut price = Price::of(0);
    for number in form {
        let Some(part) = take_number(sheet, empties.as_slice(), &mut stack, *number)? else {
            return Ok(None);
        };
        let Some(more) = past_words(&mut stack, rest) else {
            return Ok(None);
        };
        price = price + part;
        rest = more;
    }
    Ok((stack.is_empty() && rest.is_empty()).then_some(price))
}
