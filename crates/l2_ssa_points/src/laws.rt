//! What holds of a code's equations at a point: functions without effect whose contracts are the laws.
ghost use Rattle.l2_ssa_points.specs.Law.{PointsStart, PointsTest};

/// Loops start back where the point's rows hold, and the tests at the ends of turns are these rows.
pub fn points_test()
    ensures start { PointsStart }
    ensures test { PointsTest }
{}
