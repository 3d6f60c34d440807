// The store as a definition: one request on an image, lists of requests, and what is claimed of them. Definitions and theorems alone; there is
// nothing to run.
#![tactic(auto)]
