// What holds of every state that the work on a job comes to: definitions and laws, no code.
