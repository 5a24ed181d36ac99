// The hit share of a zone: its starts answered by themselves, in percent of its accepted starts.
ghost use Rattle.std.specs.Prelude.{◌≡◌, ◌+◌, ◌*◌, ◌^◌, ◌<◌, MatchOption};
ghost use Rattle.rules.specs.Shares.{hit_share, NearestPercent, HalvesUp};

// The nearest whole percentage, halves up. None before the first start.
pub fn hit_share(hits: u32, starts: u32) -> Option<u64>
    ensures value { result ≡ hit_share hits starts }
    ensures nearest_percent { MatchOption result (starts ≡ 0) (λ share. NearestPercent hits starts share) }
    ensures halves_up { MatchOption result (starts ≡ 0) (λ share. HalvesUp hits starts share) }
{
    let part = 100 * u64::from(hits);
    let whole = u64::from(starts);
    (2 * part + whole).checked_div(2 * whole)
}

#[cfg(test)]
mod tests {
    use super::*;

    #[test]
    fn shares(rt: HostRuntime) {
        assert_eq!(rt; hit_share(0, 0), None);
        assert_eq!(rt; hit_share(1, 8), Some(13));
        assert_eq!(rt; hit_share(3, 8), Some(38));
        assert_eq!(rt; hit_share(2, 3), Some(67));
        assert_eq!(rt; hit_share(4_294_967_295, 1), Some(429_496_729_500));
    }
}
