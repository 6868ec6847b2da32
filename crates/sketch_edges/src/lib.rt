//! The frequency sketch at the edges of its rules: each test runs one edge on words that it lends.
#![tactic(auto)]

#[cfg(test)]
mod tests {
    use sketch::{FrequencySketch, Increment};

    // Counts a hash so many times, and says what the last came to.
    fn count(sketch: &mut FrequencySketch, hash: u64, times: u32) -> Increment {
        let mut last = Increment::Closed;
        for _ in 0..times {
            last = sketch.increment(hash);
        }
        last
    }

    #[test]
    fn a_counter_stops_at_fifteen(rt: HostRuntime) {
        let mut words = [0u64; 128];
        let mut sketch = FrequencySketch::new(&mut words);
        sketch.ensure_capacity(128);
        assert_eq!(rt; count(&mut sketch, 7, 15), Increment::Counted);
        assert_eq!(rt; sketch.frequency(7), 15);
        assert_eq!(rt; sketch.size(), 15);
        assert_eq!(rt; count(&mut sketch, 7, 1), Increment::Full);
        assert_eq!(rt; sketch.frequency(7), 15);
        assert_eq!(rt; sketch.size(), 15);
    }

    #[test]
    fn the_last_of_the_sample_halves(rt: HostRuntime) {
        let mut words = [0u64; 128];
        let mut sketch = FrequencySketch::new(&mut words);
        sketch.ensure_capacity(0);
        assert_eq!(rt; sketch.sample_size(), 1280);
        for hash in 0..1279 {
            assert_eq!(rt; sketch.increment(hash), Increment::Counted);
        }
        assert_eq!(rt; sketch.size(), 1279);
        let seen = sketch.frequency(1278);
        assert_eq!(rt; sketch.increment(5000), Increment::Halved);
        assert!(rt; sketch.size() <= 640);
        assert!(rt; sketch.frequency(1278) <= seen);
    }

    #[test]
    fn a_reset_halves(rt: HostRuntime) {
        let mut words = [0u64; 128];
        let mut sketch = FrequencySketch::new(&mut words);
        sketch.ensure_capacity(1);
        assert_eq!(rt; count(&mut sketch, 9, 5), Increment::Counted);
        sketch.reset();
        assert_eq!(rt; sketch.frequency(9), 2);
        assert_eq!(rt; sketch.size(), 1);
    }

    // Opens over so many words for `cap`: the table's length and the sample.
    fn opened(words: &mut [u64], cap: u64) -> (usize, u64) {
        let mut sketch = FrequencySketch::new(words);
        sketch.ensure_capacity(cap);
        (sketch.table_len(), sketch.sample_size())
    }

    #[test]
    fn the_fewest_words_open_for_any_capacity(rt: HostRuntime) {
        let mut words = [1u64; 128];
        assert_eq!(rt; opened(&mut words, 0), (128, 1280));
        assert_eq!(rt; opened(&mut words, 127), (128, 1280));
        assert_eq!(rt; opened(&mut words, 128), (128, 1280));
        assert_eq!(rt; opened(&mut words, 129), (128, 1280));
        assert_eq!(rt; opened(&mut words, u64::MAX), (128, 1280));
    }

    #[test]
    fn the_most_words_open_for_each_capacity(rt: HostRuntime) {
        let mut words = [1u64; 8192];
        assert_eq!(rt; opened(&mut words, 0), (128, 1280));
        assert_eq!(rt; opened(&mut words, 127), (128, 1280));
        assert_eq!(rt; opened(&mut words, 128), (128, 1280));
        assert_eq!(rt; opened(&mut words, 129), (256, 1290));
        assert_eq!(rt; opened(&mut words, 8192), (8192, 81920));
        assert_eq!(rt; opened(&mut words, 8193), (8192, 81920));
        assert_eq!(rt; opened(&mut words, u64::MAX), (8192, 81920));
    }

    #[test]
    fn other_numbers_of_words_stay_closed(rt: HostRuntime) {
        assert_eq!(rt; opened(&mut [0u64; 0], 5), (0, 0));
        assert_eq!(rt; opened(&mut [3u64; 1], 5), (0, 0));
        assert_eq!(rt; opened(&mut [3u64; 127], 5), (0, 0));
        assert_eq!(rt; opened(&mut [3u64; 200], 5), (0, 0));
    }

    #[test]
    fn a_closed_sketch_counts_nothing(rt: HostRuntime) {
        let mut words = [3u64; 200];
        let mut sketch = FrequencySketch::new(&mut words);
        sketch.ensure_capacity(200);
        assert_eq!(rt; sketch.increment(1), Increment::Closed);
        assert_eq!(rt; sketch.frequency(1), 0);
    }

    #[test]
    fn a_second_opening_forgets_only_where_it_grows(rt: HostRuntime) {
        let mut words = [0u64; 256];
        let mut sketch = FrequencySketch::new(&mut words);
        sketch.ensure_capacity(128);
        assert_eq!(rt; sketch.increment(4), Increment::Counted);
        sketch.ensure_capacity(100);
        assert_eq!(rt; sketch.frequency(4), 1);
        sketch.ensure_capacity(200);
        assert_eq!(rt; sketch.table_len(), 256);
        assert_eq!(rt; sketch.sample_size(), 2000);
        assert_eq!(rt; sketch.size(), 0);
        assert_eq!(rt; sketch.frequency(4), 0);
    }

    #[test]
    fn the_largest_hash_has_its_counters(rt: HostRuntime) {
        let mut words = [0u64; 128];
        let mut sketch = FrequencySketch::new(&mut words);
        sketch.ensure_capacity(128);
        assert_eq!(rt; sketch.increment(u64::MAX), Increment::Counted);
        assert_eq!(rt; sketch.frequency(u64::MAX), 1);
    }
}
