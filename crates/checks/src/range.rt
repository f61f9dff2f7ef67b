// Whether a number is in a range of document 01's "Numbers accepted".
ghost use Rattle.std.specs.Prelude.{◌≡◌};
ghost use Rattle.rules.specs.Numbers.{in_range};

// low..high.
pub fn in_range(low: usize, high: usize, n: usize) -> bool
    ensures { result ≡ in_range low high n }
{
    low <= n && n <= high
}
