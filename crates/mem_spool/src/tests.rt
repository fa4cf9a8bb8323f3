// What no clause says.
