// Books cut short, damaged and too long, against the answers that they should have.
#![tactic(auto)]

#[cfg(test)]
mod tests {
    use desk::{Outcome, run};
    use register::Layer;
    use std::alloc::Global;
    use std::test::Fail;

    // The number of the answer and its place; of an accepted field, 0 and 0.
    fn told(outcome: &Outcome) -> (u8, usize) {
        let place = outcome.answer.err().map_or(0, |fault| fault.place());
        (outcome.number(), place)
    }

    // A rouble sheet, portfolio 1, 100,000 paid in, 100,001 paid out, figures.
    const FIRST: [u8; 52] = [
        0x01, 0, 6, 0x02, 0x83, 0, 0, 0x27, 0x10, 0x05, 0, 0, 0x10, 0, 2, 0, 1, 0x11, 0, 12, 0, 1,
        0x02, 0x83, 0, 0, 0, 0, 0, 1, 0x86, 0xa0, 0x12, 0, 12, 0, 1, 0x02, 0x83, 0, 0, 0, 0, 0, 1,
        0x86, 0xa1, 0x18, 0, 2, 0, 1,
    ];

    // Where its fields end, and their answers.
    const ENDS: [(usize, u8); 6] = [(9, 0), (12, 0), (17, 0), (32, 0), (47, 24), (52, 0)];

    // Cut at any byte, the whole fields are answered as ever, and the one that is cut meets 1.
    #[test]
    fn cut_at_every_byte(rt: HostRuntime) -> Result<(), Fail> {
        for n in 0..=FIRST.len() {
            let outcomes = run(rt.alloc(), &FIRST[0..n])?;
            let mut left = outcomes.iter();
            let mut start = 0;
            for (end, answer) in ENDS {
                if end <= n {
                    assert_eq!(rt; left.next().map(|outcome| told(outcome).0), Some(answer));
                    start = end;
                }
            }
            if start < n {
                assert_eq!(rt; left.next().map(told), Some((1, start + 1)));
            }
            assert!(rt; left.next().is_none());
        }
        Ok(())
    }

    // Refusals with their places: no sheet yet, unknown tags, wrong lengths, numbers out of
    // range, codes twice, a full draft, sheets that do not close, portfolios and payments refused.
    const FAULTS: [u8; 406] = [
        16, 0, 2, 0, 1, 127, 0, 2, 97, 98, 1, 0, 5, 2, 131, 0, 0, 39, 5, 0, 1, 0, 1, 0, 6, 0, 0, 0,
        0, 39, 16, 1, 0, 6, 3, 232, 0, 0, 0, 1, 1, 0, 6, 3, 72, 0, 0, 0, 0, 1, 0, 6, 3, 72, 0, 152,
        150, 129, 1, 0, 6, 2, 131, 0, 0, 39, 15, 1, 0, 6, 2, 131, 0, 0, 39, 16, 5, 0, 0, 5, 0, 0,
        1, 0, 6, 2, 131, 0, 0, 39, 16, 1, 0, 6, 3, 231, 0, 0, 0, 1, 5, 0, 0, 1, 0, 6, 0, 8, 0, 0,
        0, 77, 1, 0, 6, 0, 7, 0, 0, 0, 77, 1, 0, 6, 0, 6, 0, 0, 0, 77, 1, 0, 6, 0, 5, 0, 0, 0, 77,
        1, 0, 6, 0, 4, 0, 0, 0, 77, 1, 0, 6, 0, 3, 0, 0, 0, 77, 1, 0, 6, 0, 2, 0, 0, 0, 77, 1, 0,
        6, 0, 1, 0, 0, 0, 77, 1, 0, 6, 0, 9, 0, 0, 0, 77, 5, 0, 0, 1, 0, 6, 2, 131, 0, 0, 39, 16,
        5, 0, 0, 16, 0, 2, 0, 0, 16, 0, 2, 0, 5, 16, 0, 2, 0, 5, 24, 0, 2, 0, 0, 24, 0, 2, 0, 6,
        17, 0, 12, 0, 0, 2, 131, 0, 0, 0, 0, 0, 0, 0, 1, 17, 0, 12, 0, 5, 0, 0, 0, 0, 0, 0, 0, 0,
        0, 1, 17, 0, 12, 0, 5, 3, 232, 0, 0, 0, 0, 0, 0, 0, 1, 17, 0, 12, 0, 5, 2, 131, 0, 0, 0, 0,
        0, 0, 0, 0, 18, 0, 12, 0, 5, 2, 131, 0, 0, 0, 46, 144, 237, 208, 1, 17, 0, 12, 0, 6, 2,
        131, 0, 0, 0, 0, 0, 0, 0, 1, 17, 0, 12, 0, 5, 3, 72, 0, 0, 0, 0, 0, 0, 0, 1, 17, 0, 12, 0,
        5, 2, 131, 0, 0, 0, 46, 144, 237, 208, 0, 17, 0, 12, 0, 5, 2, 131, 0, 0, 0, 0, 0, 0, 0, 1,
        18, 0, 12, 0, 5, 2, 131, 0, 0, 0, 46, 144, 237, 208, 0, 18, 0, 12, 0, 5, 2, 131, 0, 0, 0,
        0, 0, 0, 0, 1, 1, 0, 6, 2, 131, 0, 0, 39, 16, 5, 0, 0, 24, 0, 2, 0, 5,
    ];

    const FAULTS_TOLD: [(u8, usize); 46] = [
        (27, 1),
        (2, 6),
        (3, 11),
        (3, 19),
        (4, 23),
        (4, 32),
        (4, 41),
        (4, 50),
        (0, 0),
        (10, 68),
        (12, 77),
        (12, 80),
        (0, 0),
        (0, 0),
        (12, 101),
        (0, 0),
        (0, 0),
        (0, 0),
        (0, 0),
        (0, 0),
        (0, 0),
        (0, 0),
        (0, 0),
        (11, 176),
        (12, 185),
        (0, 0),
        (0, 0),
        (4, 200),
        (0, 0),
        (15, 210),
        (4, 215),
        (14, 220),
        (4, 225),
        (4, 240),
        (4, 255),
        (4, 270),
        (4, 285),
        (14, 300),
        (16, 315),
        (0, 0),
        (23, 345),
        (0, 0),
        (24, 375),
        (0, 0),
        (0, 0),
        (0, 0),
    ];

    #[test]
    fn refusals_with_their_places(rt: HostRuntime) -> Result<(), Fail> {
        let outcomes = run(rt.alloc(), &FAULTS)?;
        assert_eq!(rt; outcomes.len(), FAULTS_TOLD.len());
        for (outcome, expected) in outcomes.iter().zip(FAULTS_TOLD.iter()) {
            assert_eq!(rt; told(outcome), *expected);
        }
        Ok(())
    }

    fn layer_of(outcome: &Outcome) -> Option<Layer> {
        outcome.answer.err().map(|fault| fault.layer())
    }

    // An unknown tag is the field's, a call with no sheet in force the sheet's, a second opening the register's.
    #[test]
    fn refusals_with_their_layers(rt: HostRuntime) -> Result<(), Fail> {
        let outcomes = run(rt.alloc(), &FAULTS)?;
        assert!(rt; outcomes.len() > 29);
        assert_eq!(rt; layer_of(&outcomes[1]), Some(Layer::OfField));
        assert_eq!(rt; layer_of(&outcomes[0]), Some(Layer::OfSheet));
        assert_eq!(rt; layer_of(&outcomes[29]), Some(Layer::OfRegister));
        assert_eq!(rt; layer_of(&outcomes[28]), None);
        Ok(())
    }

    // So many fields of three bytes, each a closing of an empty draft, and so many bytes of zero more.
    fn last_of(heap: Global, fields: usize, more: usize) -> Result<(usize, (u8, usize)), Fail> {
        let mut book = Vec::new(heap);
        for _ in 0..fields {
            book.extend_from_slice(&[0x05, 0, 0])?;
        }
        for _ in 0..more {
            book.push(0)?;
        }
        let outcomes = run(heap, &book)?;
        let Some(last) = outcomes.last() else {
            return Err(Fail::new("no outcome"));
        };
        Ok((outcomes.len(), told(last)))
    }

    // 65,536 bytes are read. The field that is cut there meets 1, and what comes after is not read.
    #[test]
    fn longest_book(rt: HostRuntime) -> Result<(), Fail> {
        assert_eq!(rt; last_of(rt.alloc(), 21_845, 0)?, (21_845, (12, 65_533)));
        assert_eq!(rt; last_of(rt.alloc(), 21_845, 1)?, (21_846, (1, 65_536)));
        assert_eq!(rt; last_of(rt.alloc(), 21_845, 3)?, (21_846, (1, 65_536)));
        assert_eq!(rt; last_of(rt.alloc(), 21_844, 4)?, (21_846, (1, 65_536)));
        assert_eq!(rt; last_of(rt.alloc(), 30_000, 0)?, (21_846, (1, 65_536)));
        Ok(())
    }

    // A rouble sheet in force, and then portfolios 1 to 65 opened: the last finds no place.
    #[test]
    fn sixty_five_portfolios(rt: HostRuntime) -> Result<(), Fail> {
        let mut book = Vec::new(rt.alloc());
        book.extend_from_slice(&FIRST[0..12])?;
        for n in 1..66u8 {
            book.extend_from_slice(&[0x10, 0, 2, 0, n])?;
        }
        let outcomes = run(rt.alloc(), &book)?;
        assert!(rt; outcomes.len() == 67);
        assert_eq!(rt; told(&outcomes[65]), (0, 0));
        assert_eq!(rt; told(&outcomes[66]), (22, 333));
        assert_eq!(rt; outcomes[66].tag, 0x10);
        Ok(())
    }
}
