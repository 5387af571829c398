use crate::draws::Draws;

/// The first numbers from 1234567 are those that are published for this generator.
#[test]
fn draws_the_published_numbers(rt: HostRuntime) {
    let mut draws = Draws::new(1_234_567);
    assert_eq!(rt; draws.next(), 6_457_827_717_110_365_317);
    assert_eq!(rt; draws.next(), 3_203_168_211_198_807_973);
    assert_eq!(rt; draws.next(), 9_817_491_932_198_370_423);
}
