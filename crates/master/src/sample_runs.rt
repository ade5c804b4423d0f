//! Runs for tests. Their answers and events were computed from the definitions alone, apart from this program, by
//! bench/control_walk.py.

/// Runs, each a line that names its fragments and machine, calls with their answers, and the events. The first three show
/// decisions; the next is a run of nothing; then three machines, of which two change; then scans that are divided anew, at once
/// and once batches come back; the last releases what is out and what is collected.
pub const RUNS: &str = "entries 0 100 900 + entries 0 10 2000 on 8 4 8 then 8 gives 2
next 0 = collect 0
finish 0 = 1:8
next 3 = collect 1
finish 1 = nothing
next 0 = stop
begin then 0:2 1:6
collect 0 0
finish 0 then 1:8
collect 3 1
finish 1 then nothing

entries 0 100 900 + entries 0 10 2000 on 1 1 8 then 1 gives 0
next 0 = collect 0
finish 0 = 1:1
begin then 0:1
collect 0 0
finish 0 then 1:1

entries 2 10 80 + entries 2 0 1 on 3 3 8 then 3 gives 0
begin then 0:1 1:2

none on 4 4 8 then 4 gives 0
next 0 = stop
begin then nothing

entries 1 1 11 + entries 1 1 24 on 4 4 8 then 4 gives 2
next 0 = job 0 1
claim 0 1 = [0]
settle 0 1 1 = finished
next 1 = collect 0
leave 0 1 = left
finish 0 = 1:4
next 0 = job 1 3
claim 1 3 = [0]
settle 1 3 1 = finished
leave 1 3 = left
next 0 = collect 1
finish 1 = nothing
next 0 = stop
begin then 0:2 1:2
seat 0 0 1
claim 0 1 [0]
settle 0 1 1
collect 1 0
leave 0 1
finish 0 then 1:4
divide 1 4 1
seat 0 1 3
claim 1 3 [0]
settle 1 3 1
leave 1 3
collect 0 1
finish 1 then nothing

entries 1 1 11 + entries 1 1 24 on 4 4 8 then 2 gives 2
next 0 = job 0 1
claim 0 1 = [0]
settle 0 1 1 = finished
next 1 = collect 0
leave 0 1 = left
finish 0 = 1:2
next 0 = job 1 1
claim 1 1 = [0]
settle 1 1 1 = finished
leave 1 1 = left
next 0 = collect 1
finish 1 = nothing
next 0 = stop
begin then 0:2 1:2
seat 0 0 1
claim 0 1 [0]
settle 0 1 1
collect 1 0
leave 0 1
finish 0 then 1:2
seat 0 1 1
claim 1 1 [0]
settle 1 1 1
leave 1 1
collect 0 1
finish 1 then nothing

entries 1 1 11 + entries 1 1 24 on 4 4 8 then 8 gives 2
next 0 = job 0 1
claim 0 1 = [0]
settle 0 1 1 = finished
next 1 = collect 0
leave 0 1 = left
finish 0 = 1:6
next 0 = job 1 5
claim 1 5 = [0]
settle 1 5 1 = finished
leave 1 5 = left
next 0 = collect 1
finish 1 = nothing
next 0 = stop
begin then 0:2 1:2
seat 0 0 1
claim 0 1 [0]
settle 0 1 1
collect 1 0
leave 0 1
finish 0 then 1:6
divide 1 6 1
seat 0 1 5
claim 1 5 [0]
settle 1 5 1
leave 1 5
collect 0 1
finish 1 then nothing

entries 0 10 80 + pages 20 20 90000 on 3 3 8 then 3 gives 0
next 0 = collect 0
next 1 = job 1 0
next 2 = job 1 1
claim 1 0 = [0, 2, 4, 6, 8, 10, 12, 14]
claim 1 1 = [1, 3, 5, 7, 9, 11, 13, 15]
settle 1 0 3 = more
settle 1 1 4 = more
finish 0 = 1:3
claim 1 0 = [6, 9, 12, 15, 18]
claim 1 1 = [10, 13, 16, 19]
next 0 = job 1 2
claim 1 2 = [8, 11, 14, 17]
begin then 0:1 1:2
collect 0 0
seat 1 1 0
seat 2 1 1
claim 1 0 [0, 2, 4, 6, 8, 10, 12, 14]
claim 1 1 [1, 3, 5, 7, 9, 11, 13, 15]
settle 1 0 3
settle 1 1 4
finish 0 then 1:3
divide 1 3 8
claim 1 0 [6, 9, 12, 15, 18]
claim 1 1 [10, 13, 16, 19]
seat 0 1 2
claim 1 2 [8, 11, 14, 17]

entries 0 10 80 + pages 5 5 90000 on 3 3 8 then 3 gives 0
next 0 = collect 0
next 1 = job 1 0
finish 0 = 1:3
next 0 = job 1 1
next 2 = job 1 2
claim 1 0 = [0, 3]
claim 1 1 = [1, 4]
claim 1 2 = [2]
begin then 0:1 1:2
collect 0 0
seat 1 1 0
finish 0 then 1:3
divide 1 3 0
seat 0 1 1
seat 2 1 2
claim 1 0 [0, 3]
claim 1 1 [1, 4]
claim 1 2 [2]

entries 0 10 80 + pages 12 12 90000 on 6 3 8 then 1 gives 0
next 0 = collect 0
next 1 = job 1 0
claim 1 0 = [0, 5, 10]
settle 1 0 3 = more
finish 0 = 1:1
claim 1 0 = [11]
settle 1 0 1 = more
leave 1 0 = left
next 1 = job 1 1
claim 1 1 = [1, 6]
settle 1 1 2 = more
leave 1 1 = left
next 1 = job 1 2
claim 1 2 = [2, 7]
settle 1 2 2 = more
leave 1 2 = left
next 1 = job 1 3
claim 1 3 = [3, 8]
settle 1 3 2 = more
leave 1 3 = left
next 1 = job 1 4
claim 1 4 = [4, 9]
begin then 0:1 1:5
collect 0 0
seat 1 1 0
claim 1 0 [0, 5, 10]
settle 1 0 3
finish 0 then 1:1
divide 1 1 11
claim 1 0 [11]
settle 1 0 1
leave 1 0
seat 1 1 1
claim 1 1 [1, 6]
settle 1 1 2
leave 1 1
seat 1 1 2
claim 1 2 [2, 7]
settle 1 2 2
leave 1 2
seat 1 1 3
claim 1 3 [3, 8]
settle 1 3 2
leave 1 3
seat 1 1 4
claim 1 4 [4, 9]

entries 0 10 80 + entries 10 10 90000 on 3 3 8 then 3 gives 0
next 0 = collect 0
next 1 = job 1 0
next 2 = job 1 1
claim 1 0 = [0, 1, 2, 3, 4]
claim 1 1 = [5, 6, 7, 8, 9]
settle 1 0 2 = more
settle 1 1 1 = more
finish 0 = 1:3
claim 1 0 = [2, 3]
claim 1 1 = [4, 6]
next 0 = job 1 2
claim 1 2 = [7, 8, 9]
begin then 0:1 1:2
collect 0 0
seat 1 1 0
seat 2 1 1
claim 1 0 [0, 1, 2, 3, 4]
claim 1 1 [5, 6, 7, 8, 9]
settle 1 0 2
settle 1 1 1
finish 0 then 1:3
divide 1 3 7
claim 1 0 [2, 3]
claim 1 1 [4, 6]
seat 0 1 2
claim 1 2 [7, 8, 9]

entries 0 10 80 + pages 20 20 90000 on 2 3 8 then 2 gives 0
next 0 = collect 0
next 1 = job 1 0
claim 1 0 = [0, 1, 2, 3, 4, 5, 6, 7]
finish 0 = 1:2
settle 1 0 3 = cut 3
claim 1 0 = [4, 6, 8, 10, 12, 14, 16, 18]
next 0 = job 1 1
claim 1 1 = [3, 5, 7, 9, 11, 13, 15, 17]
begin then 0:1 1:1
collect 0 0
seat 1 1 0
claim 1 0 [0, 1, 2, 3, 4, 5, 6, 7]
finish 0 then 1:2
settle 1 0 3
divide 1 2 3
claim 1 0 [4, 6, 8, 10, 12, 14, 16, 18]
seat 0 1 1
claim 1 1 [3, 5, 7, 9, 11, 13, 15, 17]

entries 0 10 80 + pages 4 4 90000 on 3 3 1 then 1 gives 0
next 0 = collect 0
next 1 = job 1 0
next 2 = job 1 1
claim 1 0 = [0]
finish 0 = 1:1
claim 1 1 = hold
settle 1 0 1 = cut 1
claim 1 1 = leave
begin then 0:1 1:2
collect 0 0
seat 1 1 0
seat 2 1 1
claim 1 0 [0]
finish 0 then 1:1
settle 1 0 1
divide 1 1 1

entries 0 10 80 + entries 10 10 90000 on 2 3 8 then 3 gives 0
next 0 = collect 0
next 1 = job 1 0
claim 1 0 = [0, 1, 2, 3, 4, 5, 6, 7]
finish 0 = 1:3
settle 1 0 2 = cut 8
claim 1 0 = [2, 3]
next 0 = job 1 1
claim 1 1 = [4, 5, 6]
next 2 = job 1 2
claim 1 2 = [7, 8, 9]
begin then 0:1 1:1
collect 0 0
seat 1 1 0
claim 1 0 [0, 1, 2, 3, 4, 5, 6, 7]
finish 0 then 1:3
settle 1 0 2
divide 1 3 8
claim 1 0 [2, 3]
seat 0 1 1
claim 1 1 [4, 5, 6]
seat 2 1 2
claim 1 2 [7, 8, 9]

entries 0 10 80 + pages 3 3 90000 on 2 3 64 then 2 gives 0
next 0 = collect 0
next 1 = job 1 0
claim 1 0 = [0, 1, 2]
finish 0 = 1:2
settle 1 0 3 = finished
next 0 = collect 1
begin then 0:1 1:1
collect 0 0
seat 1 1 0
claim 1 0 [0, 1, 2]
finish 0 then 1:2
settle 1 0 3
collect 0 1

entries 2 1 11 + entries 2 1 24 on 4 4 8 then 4 gives 0
next 0 = job 0 0
next 1 = job 0 1
claim 0 1 = [1]
release = released
next 0 = job 0 0
claim 0 0 = [0]
settle 0 0 1 = more
leave 0 0 = left
next 0 = job 0 1
claim 0 1 = [1]
settle 0 1 1 = finished
next 0 = collect 0
release = released
next 0 = collect 0
begin then 0:2 1:2
seat 0 0 0
seat 1 0 1
claim 0 1 [1]
leave 0 0
settle 0 1 0
leave 0 1
seat 0 0 0
claim 0 0 [0]
settle 0 0 1
leave 0 0
seat 0 0 1
claim 0 1 [1]
settle 0 1 1
collect 0 0
leave 0 1
uncollect 0
collect 0 0";

/// A walk of calls at random by five backends.
pub const WALK: &str = "trio on 6 4 4 then 3 gives 2
next 1 = job 0 0
claim 0 0 = [0, 2, 4, 6]
settle 0 0 4 = more
claim 0 0 = [8, 10]
next 2 = job 0 1
claim 0 1 = [1, 3, 5, 7]
next 2 = job 1 0
leave 1 0 = left
settle 0 0 2 = more
settle 0 1 4 = more
claim 0 1 = [9, 11]
settle 0 1 2 = finished
next 3 = collect 0
next 0 = job 1 0
next 4 = job 1 1
next 0 = job 1 2
uncollect 0 = undone
leave 1 1 = left
claim 1 0 = [0, 1]
next 0 = collect 0
claim 0 0 = leave
finish 0 = 1:3
claim 1 2 = hold
claim 0 0 = leave
claim 1 2 = hold
settle 1 0 2 = cut 7
next 2 = job 1 1
claim 1 1 = [4, 5]
next 4 = rest
claim 0 1 = leave
settle 1 1 2 = more
next 0 = rest
next 4 = rest
next 4 = rest
claim 1 1 = leave
claim 1 0 = [2, 3]
next 3 = rest
next 3 = rest
next 2 = rest
claim 1 2 = [6, 7, 8]
settle 1 2 3 = more
leave 0 0 = left
settle 1 0 2 = finished
next 2 = collect 1
next 2 = rest
next 3 = rest
claim 1 1 = leave
next 0 = rest
next 4 = rest
next 4 = rest
leave 1 0 = left
next 2 = rest
next 1 = rest
finish 1 = 2:3
leave 1 2 = left
next 2 = job 2 0
next 0 = rest
claim 2 0 = [0]
settle 2 0 1 = finished
next 0 = collect 2
claim 2 0 = leave
next 2 = rest
finish 2 = nothing
claim 0 1 = leave
next 1 = stop
claim 1 1 = leave
begin then 0:2 1:4
seat 1 0 0
claim 0 0 [0, 2, 4, 6]
settle 0 0 4
claim 0 0 [8, 10]
seat 2 0 1
claim 0 1 [1, 3, 5, 7]
seat 2 1 0
leave 1 0
settle 0 0 2
settle 0 1 4
claim 0 1 [9, 11]
settle 0 1 2
collect 3 0
seat 0 1 0
seat 4 1 1
seat 0 1 2
uncollect 0
leave 1 1
claim 1 0 [0, 1]
collect 0 0
finish 0 then 1:3
settle 1 0 2
divide 1 3 7
seat 2 1 1
claim 1 1 [4, 5]
settle 1 1 2
claim 1 0 [2, 3]
claim 1 2 [6, 7, 8]
settle 1 2 3
leave 0 0
settle 1 0 2
collect 2 1
leave 1 0
finish 1 then 2:3
leave 1 2
seat 2 2 0
claim 2 0 [0]
settle 2 0 1
collect 0 2
finish 2 then nothing";
