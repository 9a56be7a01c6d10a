// Finding a row by its code, for a program in Rust or C to time.
#![tactic(auto)]

ghost use Rattle.std.specs.Prelude.{◌≡◌, ◌<◌, ◌≤◌, length, take, None};
ghost use Rattle.keyed.specs.Rows.{Rising, Stands, lookup};

use keyed::Keyed;

#[derive(Clone, Copy)]
#[repr(C)]
pub struct Row {
    pub code: u32,
    pub price: u32,
    pub amount: u64,
}

impl Keyed for Row {
    type Key = u32;

    ghost key = { λ x. x.code };

    fn key(&self) -> u32 {
        self.code
    }
}

// Where the code stands among the first `used` rows; the number of places where it does not. `used` and the
// answer are numbers, as C passes and takes them.
#[unsafe(no_mangle)]
#[tactic(auto, using(crate::proofs::InUse::in_use))]
pub extern "C" fn find_row(rows: &[Row], used: usize, code: u32) -> usize
    ensures found { Rising (λ x. x.code) (take used rows.now) → result < length rows.now → Stands (λ x. x.code) (take used rows.now) code result }
    ensures missing { Rising (λ x. x.code) (take used rows.now) → length rows.now ≤ result → lookup (λ x. x.code) (take used rows.now) code ≡ None }
{
    match keyed::find(&rows[..used.min(rows.len())], code) {
        Ok(at) => at,
        Err(_) => rows.len(),
    }
}
