ghost use Rattle.xc_course.specs.Laws.{CoursesEnd, CoursesEndOnce};

/// A course has exactly one end, whatever its loads find.
pub fn courses_end_once()
    ensures at_least { CoursesEnd }
    ensures at_most { CoursesEndOnce }
{}
