// Sets of dotted places that grow by what a sheet says of them.
ghost use Rattle.std.specs.Prelude.{◌≡◌, ℕ, ◌<◌, ◌≤◌, true};
ghost use Rattle.items.specs.Members.{member, Common};
ghost use Rattle.grammar.specs.View.{grammar_of};
ghost use Rattle.tables.specs.inner.Sets.{Skipped, Over, Asks, Chained, Opened};
ghost use Rattle.tables.specs.inner.Related.{Related};
ghost use Rattle.tables.specs.inner.Growth.{Saturated, Crosses, Opens};

use grammar::sheet::Sheet;
use items::Items;

// The value, if the items meet the key.
fn chosen(items: Items, key: Items, value: Items) -> Items
    ensures into { Common items.words key.words → (d : ℕ) → d < 256 → member value.words d ≡ true → member result.words d ≡ true }
    ensures from { (d : ℕ) → d < 256 → member result.words d ≡ true → Common items.words key.words × (member value.words d ≡ true) }
{
    if items.meets(key) {
        value
    } else {
        Items::none()
    }
}

// The union of the first n values whose keys the items meet.
fn relate(keys: &[Items; 32], values: &[Items; 32], n: usize, items: Items) -> Items
    requires { n ≤ 32 }
    ensures { Related keys.now values.now items.words result.words n }
{
    // By index: over a `zip` a hearing took 25 to 34 per cent longer.
    let mut set = Items::none();
    for a in 0..n {
        set = set.or(chosen(items, keys[a], values[a]));
    }
    set
}

// The places with their dot before a name that is complete in the set. This and the next only name the masks of `relate`.
pub(crate) fn over(sheet: &Sheet, items: Items) -> Items
    ensures { Over (grammar_of sheet.now) items.words result.words }
{
    let masks = sheet.masks();
    let names = sheet.name_count() as usize;
    relate(&masks.last, &masks.before_name, names, items)
}

// The first places of the rules whose names stand after a dot in the set.
pub(crate) fn asked(sheet: &Sheet, items: Items) -> Items
    ensures { Asks (grammar_of sheet.now) items.words result.words }
{
    let masks = sheet.masks();
    let names = sheet.name_count() as usize;
    relate(&masks.before_name, &masks.first, names, items)
}

// The set, and what the step makes of it again and again until nothing is new.
fn saturate<F: Fn(Items) -> Items>(items: Items, step: F) -> Items
    requires { F.IsAlwaysCallable step }
    ensures { Saturated (F.post step) items result }
{
    let mut set = items;
    loop {
        let more = step(set);
        if !set.grow(more) {
            return set;
        }
    }
}

// Passes the names that can yield nothing.
fn skip(sheet: &Sheet, items: Items) -> Items
    ensures { Skipped (grammar_of sheet.now) items.words result.words }
{
    let nullable = sheet.masks().before_nullable;
    saturate(items, |set| set.step(nullable))
}

// Passes, in the base, the names that are complete in the set.
fn cross(sheet: &Sheet, base: Items, items: Items) -> Items
    ensures { Crosses (grammar_of sheet.now) base.words items.words result.words }
{
    skip(sheet, base.step(over(sheet, items)))
}

// Passes the names of the base that are complete in the set, until no more are.
pub(crate) fn chain(sheet: &Sheet, base: Items, items: Items) -> Items
    ensures { Chained (grammar_of sheet.now) base.words items.words result.words }
{
    saturate(skip(sheet, items), |set| cross(sheet, base, set))
}

// The first places of the names that stand after a dot in the set, and what they pass.
fn enter(sheet: &Sheet, items: Items) -> Items
    ensures { Opens (grammar_of sheet.now) items.words result.words }
{
    skip(sheet, asked(sheet, items))
}

// Opens the names that stand after a dot in the set.
pub(crate) fn open(sheet: &Sheet, items: Items) -> Items
    ensures { Opened (grammar_of sheet.now) items.words result.words }
{
    saturate(skip(sheet, items), |set| enter(sheet, set))
}
