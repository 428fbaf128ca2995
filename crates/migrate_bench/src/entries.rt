use route_core::RouteSource;

/// How many entries the tables of all routers have together, or 2^64 - 1 where they have more.
pub fn count_entries<S: RouteSource>(source: &S) -> u64 {
    let mut count = 0u64;
    for router in 0..source.routers() {
        count = count.saturating_add(source.table(router).len() as u64);
    }
    count
}
