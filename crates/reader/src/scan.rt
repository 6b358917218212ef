// A search by a test on numbers.
ghost use Rattle.std.specs.Prelude.{◌≡◌, ℕ, Bool, ◌<◌};
ghost use Rattle.kit.specs.Scan.{first_not};

// The lowest number below n at which the test fails, or n. No Option: `index_of` and `number_in` give as many as there are where there is none.
pub fn first_not<F: Fn(usize) -> bool>(n: usize, test: F) -> usize
    requires { (i : ℕ) → i < n → F.pre test i }
    ensures { (f : ℕ → Bool) → ((i : ℕ) (b : Bool) → i < n → F.post test i b → b ≡ f i) → result ≡ first_not f n 0 }
{
    for i in 0..n {
        if !test(i) {
            return i;
        }
    }
    n
}
