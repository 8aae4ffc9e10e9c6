// Search by halving, among records in the order of their keys.
#![tactic(auto)]

mod keyed;
mod search;

pub use keyed::Keyed;
pub use search::{count_up_to, find_key, last_up_to};

#[cfg(test)]
mod tests {
    use super::*;

    #[derive(Clone, Copy, PartialEq, Debug)]
    struct Price {
        month: u16,
        cents: u32,
    }

    impl Keyed for Price {
        ghost order = { λ p. p.month };

        fn key(&self) -> u64 {
            u64::from(self.month)
        }
    }

    const MARCH: Price = Price {
        month: 3,
        cents: 2650,
    };

    const JULY: Price = Price {
        month: 7,
        cents: 2100,
    };

    const DECEMBER: Price = Price {
        month: 12,
        cents: 2900,
    };

    const PRICES: [Price; 3] = [MARCH, JULY, DECEMBER];

    #[test]
    fn counts_up_to_a_limit(rt: HostRuntime) {
        assert_eq!(rt; count_up_to(&PRICES, 2), 0);
        assert_eq!(rt; count_up_to(&PRICES, 3), 1);
        assert_eq!(rt; count_up_to(&PRICES, 11), 2);
        assert_eq!(rt; count_up_to(&PRICES, 12), 3);
        assert_eq!(rt; count_up_to(&PRICES[..0], 12), 0);
    }

    #[test]
    fn the_last_up_to_a_limit(rt: HostRuntime) {
        assert_eq!(rt; last_up_to(&PRICES, 2), None);
        assert_eq!(rt; last_up_to(&PRICES, 6), Some(MARCH));
        assert_eq!(rt; last_up_to(&PRICES, 7), Some(JULY));
        assert_eq!(rt; last_up_to(&PRICES, 99), Some(DECEMBER));
    }

    #[test]
    fn one_by_its_key(rt: HostRuntime) {
        assert_eq!(rt; find_key(&PRICES, 2), None);
        assert_eq!(rt; find_key(&PRICES, 7), Some(JULY));
        assert_eq!(rt; find_key(&PRICES, 8), None);
        assert_eq!(rt; find_key(&PRICES, 12), Some(DECEMBER));
    }
}
