//! The calls of a trial. Refusals are compared by the numbers that callers see.
use evaluator::Trial;
use paging::refusal::Refusal;

const S: [u8; 12] = [0, 1, 2, 3, 0, 1, 4, 0, 1, 2, 3, 4];

fn sample() -> Trial {
    let mut trial = Trial::new();
    for code in &S {
        let _ = trial.put(*code);
    }
    trial
}

#[test]
fn take_back_to_nothing(rt: HostRuntime) {
    let mut trial = sample();
    assert_eq!(rt; trial.len(), 12);
    assert_eq!(rt; trial.take_back(13).map_err(Refusal::number), Err(9));
    assert_eq!(rt; trial.len(), 12);
    assert_eq!(rt; trial.take_back(12), Ok(0));
    assert_eq!(rt; trial.len(), 0);
}

#[test]
fn put_up_to_the_limit(rt: HostRuntime) {
    let mut trial = Trial::new();
    for i in 0..4096 {
        assert_eq!(rt; trial.put((i % 256) as u8), Ok(i + 1));
    }
    assert_eq!(rt; trial.put(7).map_err(Refusal::number), Err(8));
    assert_eq!(rt; trial.len(), 4096);
    assert_eq!(rt; trial.clear(), 0);
    assert_eq!(rt; trial.put(7), Ok(1));
}

#[test]
fn figures_of_the_sample(rt: HostRuntime) {
    let trial = sample();
    let rows = [
        (12, 12, 12, 12),
        (12, 9, 6, 11),
        (10, 7, 4, 7),
        (8, 6, 3, 6),
        (5, 5, 1, 5),
    ];
    for (frames, (lru_instants, min_pulls, dpmin_instants, dpmin_pulls)) in (1..=5).zip(rows) {
        assert_eq!(rt;
            trial.figures('L', frames).map(|figures| figures.0),
            Ok(lru_instants)
        );
        assert_eq!(rt;
            trial.figures('M', frames).map(|figures| figures.1),
            Ok(min_pulls)
        );
        assert_eq!(rt;
            trial.figures('D', frames),
            Ok((dpmin_instants, dpmin_pulls))
        );
    }
    assert_eq!(rt; trial.working_sets(3), Ok((10, 33)));
}

#[test]
fn questions_in_their_order(rt: HostRuntime) {
    let trial = sample();
    assert_eq!(rt; trial.figures('X', 0).map_err(Refusal::number), Err(10));
    assert_eq!(rt; trial.figures('l', 3).map_err(Refusal::number), Err(10));
    assert_eq!(rt; trial.figures('L', 0).map_err(Refusal::number), Err(11));
    assert_eq!(rt; trial.figures('L', 65).map_err(Refusal::number), Err(11));
    assert_eq!(rt; trial.edge('X', 0).map_err(Refusal::number), Err(10));
    assert_eq!(rt; trial.edge('F', 100).map_err(Refusal::number), Err(12));
    assert_eq!(rt; trial.edge('L', 4).map_err(Refusal::number), Err(13));
    assert_eq!(rt; trial.working_sets(0).map_err(Refusal::number), Err(15));
    assert_eq!(rt; trial.working_sets(4097).map_err(Refusal::number), Err(15));
}

#[test]
fn a_plan_that_does_not_fit(rt: HostRuntime) {
    let trial = sample();
    let mut words = [7; 12];
    assert_eq!(rt; trial.plan('D', 3, &mut words), Ok(11));
    assert_eq!(rt; words[0], 0xC0000);
    assert_eq!(rt; words[3], 0x200800);
    assert_eq!(rt; words[11], 7);
    let mut few = [7; 10];
    assert_eq!(rt;
        trial.plan('D', 3, &mut few).map_err(Refusal::number),
        Err(17)
    );
    assert_eq!(rt; few[0], 7);
    assert_eq!(rt; few[9], 7);
}
