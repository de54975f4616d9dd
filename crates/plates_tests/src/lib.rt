//! Tests of plates over pages and rolls, through the public calls alone.
#![tactic(auto)]

#[cfg(test)]
mod tests {
    use drawing::faults::Fault;
    use drawing::options::WriteOptions;
    use plates::elements::Element;
    use plates::plates::Plate;
    use stores::Store;
    use stores::pages::Page;
    use stores::rolls::Roll;

    // The number of the rule that refuses a call, if one does.
    // Kept: numbers, since they are what a record shows of a fault.
    fn rule(answer: Result<(), Fault>) -> Result<(), u8> {
        answer.map_err(|fault| fault.number())
    }

    // One open of a g on a new plate: its answer, and the store.
    fn open_one<S: Store>(store: S, options: &WriteOptions, id: &[u8]) -> (Result<(), u8>, S) {
        let mut plate = Plate::new(store);
        let answer = rule(plate.open(options, Element::G, id));
        (answer, plate.into_store())
    }

    fn rule_of_open(options: &WriteOptions, id: &[u8]) -> Result<(), u8> {
        let mut buffer = [0u8; 200];
        let (answer, _page) = open_one(Page::new(&mut buffer), options, id);
        answer
    }

    // Opens `times` elements one in another, and one more: the answers of the last two.
    fn open_many<S: Store + Drop>(store: S, times: usize) -> (Result<(), u8>, Result<(), u8>) {
        let options = WriteOptions::default();
        let mut plate = Plate::new(store);
        let last = (0..times)
            .map(|_| rule(plate.open(&options, Element::G, b"")))
            .last()
            .unwrap_or(Ok(()));
        (last, rule(plate.open(&options, Element::G, b"")))
    }

    #[test]
    fn eleven_bytes_and_ten(rt: HostRuntime) {
        let options = WriteOptions::default();
        let mut wide = [7u8; 11];
        let (answer, page) = open_one(Page::new(&mut wide), &options, b"m");
        assert_eq!(rt; answer, Ok(()));
        assert!(rt; page.text() == b"<g id=\"m\"".as_slice());
        let mut tight = [7u8; 10];
        let (answer, page) = open_one(Page::new(&mut tight), &options, b"m");
        assert_eq!(rt; answer, Err(9));
        assert_eq!(rt; page.count(), 0);
        assert!(rt; page.image() == [0u8; 10].as_slice());
    }

    #[test]
    fn a_roll_of_100_bytes(rt: HostRuntime) {
        let mut buffer = [7u8; 100];
        let (answer, roll) = open_one(Roll::new(&mut buffer), &WriteOptions::default(), b"m");
        assert_eq!(rt; answer, Ok(()));
        assert_eq!(rt; roll.size(), 63);
        assert_eq!(rt; roll.byte(1), Some(b'g'));
        assert_eq!(rt; roll.records().first().copied(), Some(9));
        assert_eq!(rt; roll.image().get(64).copied(), Some(7));
    }

    #[test]
    fn ids_and_precisions(rt: HostRuntime) {
        let id = [b'a'; 65];
        let options = WriteOptions::default();
        assert_eq!(rt; rule_of_open(&options, &id[0..64]), Ok(()));
        assert_eq!(rt; rule_of_open(&options, &id), Err(4));
        let finer = WriteOptions {
            transforms_precision: 9,
            ..options
        };
        assert_eq!(rt; rule_of_open(&finer, b""), Err(1));
    }

    #[test]
    fn thirty_two_and_one_more(rt: HostRuntime) {
        let mut buffer = [0u8; 400];
        let (last, more) = open_many(Page::new(&mut buffer), 32);
        assert_eq!(rt; last, Ok(()));
        assert_eq!(rt; more, Err(2));
    }
}
