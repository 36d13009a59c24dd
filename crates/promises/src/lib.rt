#![tactic(auto)]

// What an entry that searches promises of its result, stated and proved once for all of them. There is no code: `specs/Plans.antt` has the plan buffer's
// bytes, `specs/Promises.antt` the promises, `specs/Listings.antt` those of a listing of every plan.
