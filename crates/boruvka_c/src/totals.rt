//! The total weight of edges.
ghost use Rattle.std.specs.Prelude.{◌≡◌};
ghost use Rattle.boruvka_c.specs.Totals.{sum_of_given, number_in};

use caller_forests::GivenLink;

/// A sum of weights in two words, `struct boruvka_sum`. The sum is `high` times 2^64 plus `low`.
#[repr(C)]
#[derive(Clone, Copy)]
pub struct Sum {
    pub high: i64,
    pub low: u64,
}

impl Sum {
    fn of_number(number: i128) -> Sum
        ensures { number_in result ≡ number }
    {
        Sum {
            high: number.div_euclid(1 << 64) as i64,
            low: number.rem_euclid(1 << 64) as u64,
        }
    }
}

fn sum_of(links: &[GivenLink]) -> i128
    ensures { result ≡ sum_of_given links.now }
{
    let mut sum = 0;
    for link in links {
        sum += i128::from(link.weight);
    }
    sum
}

/// Writes the sum of the weights of the edges, counting repeats, whatever their endpoints are. The sum is exact for as
/// many edges as memory can hold. It takes one pass and allocates nothing.
#[unsafe(no_mangle)]
pub extern "C" fn boruvka_total(links: &[GivenLink], total: &mut Sum)
    ensures { number_in total.new ≡ sum_of_given links.now }
{
    *total = Sum::of_number(sum_of(links));
}
