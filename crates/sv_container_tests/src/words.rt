//! Random words.

use sv_run::{CountedWords, SeededWords, Words};

#[test]
fn the_words_of_a_seed_are_its_key_stream(rt: HostRuntime) {
    // The key stream for a key and a nonce of zeros (RFC 8439, appendix A.1, test vectors 1 and 2).
    let pairs: [(u64, u64); 6] = [
        (0xade0b876_903df1a0, 0xe56a5d40_28bd8653),
        (0xb819d2bd_1aed8da0, 0xccef36a8_c70d778b),
        (0x7c5941da_8d485751, 0x3fe02477_374ad8b8),
        (0xf4b8436a_1ca11815, 0x69b687c3_8665eeb2),
        (0xbee7079f_7a385155, 0x7c97ba98_0d082d73),
        (0xa0290fcb_6965e348, 0x3e53c612_ed7aee32),
    ];
    let mut words = SeededWords::from_seed(&[0; 32]);
    for pair in pairs {
        assert_eq!(rt; words.pair(), pair);
    }
}

#[test]
fn the_words_of_a_script_count_its_messages(rt: HostRuntime) {
    let mut words = CountedWords::new();
    for count in 1..4u64 {
        assert_eq!(rt; words.pair(), (0, count));
    }
}
